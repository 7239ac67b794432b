// Slots of a page: a root copied in and out, a slot and the heads of the two chains written, a slot moved from one chain to the other.
#![tactic(auto)]

ghost use Rattle.std.specs.Prelude.{◌≡◌, ◌+◌, ◌*◌, ◌≤◌, ◌<◌, length, take, drop};
ghost use Rattle.std.proofs.lemmas.List.Edits.{sets};
ghost use Rattle.shelf_page.specs.Page.{slot_at};
ghost use Rattle.shelf_slots.specs.Slots.{put_slot, put_heads};
ghost use Rattle.shelf_slots.specs.Steps.{moved_after, link_after};

use shelf_page::slot_at;

// Copies a root into the page.
fn put_root(page: &mut [u8], at: usize, root: &[u8])
    requires { (at + 16 ≤ length page.old) × (length root.now ≡ 16) }
    ensures { page.new ≡ sets page.old at root.now }
{
    page[at..at + 16].copy_from_slice(root);
}

// Copies a root out of the page.
pub fn take_root(page: &[u8], at: usize) -> [u8; 16]
    requires { at + 16 ≤ length page.now }
    ensures { result ≡ take 16 (drop at page.now) }
{
    let mut root = [0u8; 16];
    root.copy_from_slice(&page[at..at + 16]);
    root
}

// Writes a slot: its next slot and its root.
pub fn put_slot(page: &mut [u8], slot: usize, next: u16, root: &[u8])
    requires { ((0 < slot) × (slot ≤ 65535)) × ((slot_at slot + 18 ≤ length page.old) × (length root.now ≡ 16)) }
    ensures { page.new ≡ put_slot slot next root.now page.old }
{
    let at = slot_at(slot);
    bits::write_u16(page, at, next);
    put_root(page, at + 2, root);
}

// Writes the heads of the two chains.
pub fn put_heads(page: &mut [u8], ready: u16, spare: u16)
    requires { 12 ≤ length page.old }
    ensures { page.new ≡ put_heads ready spare page.old }
{
    bits::write_u16(page, 2, ready);
    bits::write_u16(page, 4, spare);
}

// Where the link to the spare slot after slot `before` stands: the spare head for 0.
fn link_after(before: u16) -> usize
    ensures { result ≡ link_after before }
{
    if before == 0 {
        4
    } else {
        slot_at(before as usize)
    }
}

// Moves the first ready slot, with this root, into spare: after slot `before`, to the front where that is 0.
// The first ready slot is then `next`.
pub fn move_after(page: &mut [u8], before: u16, slot: u16, next: u16, root: &[u8])
    requires { (12 + 18 * before ≤ length page.old) × ((0 < slot) × ((slot_at slot + 18 ≤ length page.old) × (length root.now ≡ 16))) }
    ensures { page.new ≡ moved_after before slot next root.now page.old }
{
    let link = link_after(before);
    let after = bits::read_u16(page, link);
    put_slot(page, slot as usize, after, root);
    bits::write_u16(page, 2, next);
    bits::write_u16(page, link, slot);
}
