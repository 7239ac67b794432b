// The page of a shelf: its numbers, its two chains, and whether it is sound.
#![tactic(auto)]

ghost use Rattle.std.specs.Prelude.{◌≡◌, true, ℕ, ◌+◌, ◌*◌, ◌≤◌, ◌<◌, length, get_or};
ghost use Rattle.shelf_page.specs.Page.{slot_at, next_of, chain, ended, all_one, blank, chains_from};
ghost use Rattle.shelf_page.specs.Steps.{checked, Tallied};

// The numbers of a sound shelf: S, the heads of its chains, and draws.
#[derive(Clone, Copy)]
pub struct Shelf {
    pub size: u16,
    pub ready: u16,
    pub spare: u16,
    pub draws: u32,
}

// Where slot k starts.
pub fn slot_at(slot: usize) -> usize
    requires { (0 < slot) × (slot ≤ 65535) }
    ensures { result ≡ slot_at slot }
{
    12 + 18 * (slot - 1)
}

// Follows the chain from slot `head` and counts each slot that it visits; whether 0 ends it.
fn tally(page: &[u8], size: usize, head: usize, seen: &mut [u16]) -> bool
    requires { (length seen.old ≡ 256) × ((size ≤ 255) × ((12 + 18 * size ≤ length page.now) × ((k : ℕ) → get_or seen.old k 0 ≤ 255))) }
    ensures { Tallied page.now size head seen.old result seen.new }
{
    let mut slot = head;
    for _turn in 0..size {
        if slot == 0 {
            return true;
        }
        if size < slot {
            return false;
        }
        seen[slot] += 1;
        slot = bits::read_u16(page, slot_at(slot)) as usize;
    }
    slot == 0
}

// Whether each of the slots 1..size was counted once.
fn each_once(seen: &[u16; 256], size: usize) -> bool
    requires { size ≤ 255 }
    ensures { result ≡ all_one (λ k. get_or seen.now k 0) size }
{
    for k in 1..=size {
        if seen[k] != 1 {
            return false;
        }
    }
    true
}

// Whether the slots on the chain from slot `head` hold a zero root.
fn blanks(page: &[u8], size: usize, head: usize) -> bool
    requires { (size ≤ 255) × ((12 + 18 * size ≤ length page.now) × (ended (next_of page.now) size size head ≡ true)) }
    ensures { result ≡ blank page.now (chain (next_of page.now) size head) }
{
    let zero = [0u8; 16];
    let mut slot = head;
    for _turn in 0..size {
        if slot == 0 {
            return true;
        }
        let at = slot_at(slot);
        let from = at + 2;
        let to = at + 18;
        if !bits::same(&page[from..to], &zero) {
            return false;
        }
        slot = bits::read_u16(page, at) as usize;
    }
    true
}

// Whether the two chains are as a sound page has them.
fn chains(page: &[u8], size: usize, ready: usize, spare: usize) -> bool
    requires { (size ≤ 255) × (12 + 18 * size ≤ length page.now) }
    ensures { result ≡ chains_from page.now size ready spare }
{
    let mut seen = [0u16; 256];
    if !tally(page, size, ready, &mut seen) {
        return false;
    }
    if !tally(page, size, spare, &mut seen) {
        return false;
    }
    if !each_once(&seen, size) {
        return false;
    }
    blanks(page, size, spare)
}

// The shelf of a sound page.
pub fn check(page: &[u8]) -> Option<Shelf>
    ensures { result ≡ checked page.now }
{
    if page.len() < 12 {
        return None;
    }
    let size = bits::read_u16(page, 0);
    let n = size as usize;
    if page.len() != 12 + 18 * n {
        return None;
    }
    if n < 1 {
        return None;
    }
    if 255 < n {
        return None;
    }
    let zero = bits::read_u16(page, 6);
    if zero != 0 {
        return None;
    }
    let ready = bits::read_u16(page, 2);
    let spare = bits::read_u16(page, 4);
    if !chains(page, n, ready as usize, spare as usize) {
        return None;
    }
    let draws = bits::read_u32(page, 8);
    Some(Shelf {
        size,
        ready,
        spare,
        draws,
    })
}
