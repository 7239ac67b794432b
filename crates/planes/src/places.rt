// The places of the work memory, which no other crate knows.
ghost use Rattle.std.specs.Prelude.{◌≡◌, ◌≤◌, ◌<◌};
ghost use Rattle.planes.specs.Steps.{tape_words, tape_at, masked_at, planes_end, seeds_at, seeds_end, spare, corrections_at, rows_at, leaves_at, mask_word, broadcast_word, Room, share, tape, masked, put_share, put_tape, put_masked};

use crate::Layout;

// The number of tape words.
pub(crate) fn tape_words(l: Layout) -> usize
    requires { tape_words l ≤ 4194304 }
    ensures { result ≡ tape_words l }
{
    l.inputs + 2 * l.ands + l.outputs + 7
}

// The tape word of the output masks of AND gate t.
pub fn mask_word(l: Layout, t: usize) -> usize
    requires { mask_word l t ≤ 4194304 }
    ensures { result ≡ mask_word l t }
{
    l.inputs + t
}

// The tape word of broadcast t: of an AND gate it has the product shares first.
pub fn broadcast_word(l: Layout, t: usize) -> usize
    requires { broadcast_word l t ≤ 4194304 }
    ensures { result ≡ broadcast_word l t }
{
    l.inputs + l.ands + t
}

// The place of tape word q.
pub(crate) fn tape_at(l: Layout, q: usize) -> usize
    requires { (l.wires ≤ 1048576) × (q ≤ 4194304) }
    ensures { result ≡ tape_at l q }
{
    8 * l.wires + 8 * q
}

// The place of wire w's masked value.
fn masked_at(l: Layout, w: usize) -> usize
    requires { (l.wires ≤ 1048576) × ((tape_words l ≤ 4194304) × (w ≤ 1048576)) }
    ensures { result ≡ masked_at l w }
{
    8 * l.wires + 8 * tape_words(l) + w
}

// The bytes that the planes take.
pub fn planes_end(l: Layout) -> usize
    requires { (l.wires ≤ 1048576) × (tape_words l ≤ 4194304) }
    ensures { result ≡ planes_end l }
{
    masked_at(l, l.wires)
}

// The place of the seeds of up to 64 parties: that of the tape words, before these are loaded.
pub fn seeds_at(l: Layout) -> usize
    requires { l.wires ≤ 1048576 }
    ensures { result ≡ seeds_at l }
{
    8 * l.wires
}

// The end of the seeds of n parties.
pub fn seeds_end(l: Layout, n: usize) -> usize
    requires { (l.wires ≤ 1048576) × (n ≤ 64) }
    ensures { result ≡ seeds_end l n }
{
    seeds_at(l) + 32 * n
}

// The bytes between the planes and the corrections, which come after the seeds of 64 parties.
fn spare(l: Layout) -> usize
    requires { (l.wires ≤ 1048576) × (tape_words l ≤ 4194304) }
    ensures { result ≡ spare l }
{
    2048_usize.saturating_sub(8 * tape_words(l) + l.wires)
}

// The place of the corrections: after the planes.
pub fn corrections_at(l: Layout) -> usize
    requires { (l.wires ≤ 1048576) × (tape_words l ≤ 4194304) }
    ensures { result ≡ corrections_at l }
{
    planes_end(l) + spare(l)
}

// The place of the rows: after the corrections.
pub fn rows_at(l: Layout) -> usize
    requires { (l.wires ≤ 1048576) × (tape_words l ≤ 4194304) }
    ensures { result ≡ rows_at l }
{
    corrections_at(l) + bits::oct(l.ands)
}

// The place of the leaves of n parties: after their tape rows.
pub fn leaves_at(l: Layout, n: usize) -> usize
    requires { (l.wires ≤ 1048576) × ((tape_words l ≤ 4194304) × (n ≤ 64)) }
    ensures { result ≡ leaves_at l n }
{
    rows_at(l) + n * bits::oct(l.inputs + 2 * l.ands)
}

// The shares of wire w.
pub fn share(memory: &[u8], l: Layout, w: usize) -> u64
    requires { Room l memory.now × (w < l.wires) }
    ensures { result ≡ share memory.now w }
{
    bits::read_u64(memory, 8 * w)
}

// Puts the shares of wire w.
pub fn put_share(memory: &mut [u8], l: Layout, w: usize, x: u64)
    requires { Room l memory.old × (w < l.wires) }
    ensures { memory.new ≡ put_share w x memory.old }
{
    bits::write_u64(memory, 8 * w, x);
}

// Tape word q.
pub fn tape(memory: &[u8], l: Layout, q: usize) -> u64
    requires { Room l memory.now × (q < tape_words l) }
    ensures { result ≡ tape l memory.now q }
{
    bits::read_u64(memory, tape_at(l, q))
}

// Puts tape word q.
pub fn put_tape(memory: &mut [u8], l: Layout, q: usize, x: u64)
    requires { Room l memory.old × (q < tape_words l) }
    ensures { memory.new ≡ put_tape l q x memory.old }
{
    bits::write_u64(memory, tape_at(l, q), x);
}

// The masked value of wire w, in the lowest bit.
pub fn masked(memory: &[u8], l: Layout, w: usize) -> u8
    requires { Room l memory.now × (w < l.wires) }
    ensures { result ≡ masked l memory.now w }
{
    memory[masked_at(l, w)]
}

// Puts the masked value of wire w.
pub fn put_masked(memory: &mut [u8], l: Layout, w: usize, x: u8)
    requires { Room l memory.old × (w < l.wires) }
    ensures { memory.new ≡ put_masked l w x memory.old }
{
    memory[masked_at(l, w)] = x;
}
