// What a run begins with, in the planes of the work memory.
ghost use Rattle.std.specs.Prelude.{◌≡◌, ◌+◌, ◌*◌, ◌≤◌, length, drop};
ghost use Rattle.bits.specs.Bits.{tabulate, oct, pack};
ghost use Rattle.circuit.specs.File.{circuit_of};
ghost use Rattle.plain.specs.Showing.{masked_inputs};
ghost use Rattle.planes.specs.Steps.{Room, tape_words, corrections_at, rows_at};
ghost use Rattle.packed.specs.Steps.{words_cleared, words_loaded, inputs_loaded, masked_bit, tape_bytes, broadcast_bytes, values_loaded, showing_loaded, tapes_held, corrections_held, Held};

use circuit::Sizes;
use planes::Layout;
use planes::places::{broadcast_word, put_masked, put_share, put_tape, tape};
use planes::tapes::{load_rows, put_corrections, put_party};
use walk::layout;

// Sets count tape words to zero, from word q on.
pub fn clear_words(l: Layout, q: usize, count: usize, memory: &mut [u8])
    requires { Room l memory.old × (q + count ≤ tape_words l) }
    ensures { memory.new ≡ words_cleared l q count memory.old }
{
    for t in 0..count {
        put_tape(memory, l, q + t, 0);
    }
}

// Brings the tape rows of n parties into the tape words, with zero after them, and the corrections as party n − 1's product shares.
fn load_words(l: Layout, n: usize, len: usize, memory: &mut [u8])
    requires { Room l memory.old × ((1 ≤ n) × ((n ≤ 64) × ((rows_at l + n * len ≤ length memory.old) × (8 * len ≤ l.inputs + 2 * l.ands + 7)))) }
    ensures { memory.new ≡ words_loaded l n (drop (rows_at l) memory.old) len (drop (corrections_at l) memory.old) memory.old }
{
    load_rows(l, memory, len, n);
    clear_words(l, broadcast_word(l, l.ands), l.outputs + 7, memory);
    put_corrections(l, n - 1, memory);
}

// Gives the first count wires their tape words as shares, and the masked values of a string of bits.
fn load_inputs(l: Layout, count: usize, values: &[u8], memory: &mut [u8])
    requires { Room l memory.old × ((count ≤ l.wires) × ((count ≤ l.inputs) × (count ≤ 8 * length values.now))) }
    ensures { memory.new ≡ inputs_loaded l count values.now memory.old }
{
    for w in 0..count {
        let x = tape(memory, l, w);
        put_share(memory, l, w, x);
        put_masked(memory, l, w, bits::bit(values, w));
    }
}

// Masks the first count bits of a witness with the parities of the tape words.
pub fn mask_inputs(l: Layout, count: usize, witness: &[u8], memory: &[u8], masked: &mut [u8])
    requires { Room l memory.now × ((count ≤ l.inputs) × ((count ≤ 8 * length witness.now) × (length masked.old ≡ oct count))) }
    ensures { masked.new ≡ pack (tabulate count (masked_bit l witness.now memory.now)) }
{
    bits::clear(masked);
    for w in 0..count {
        let x = words::parity(tape(memory, l, w));
        let v = bits::bit(witness, w);
        bits::put_bit(masked, w, v ^ x);
    }
}

// The bytes of a tape row.
pub fn tape_bytes(z: Sizes) -> usize
    requires { z.inputs + 2 * z.ands ≤ 4194304 }
    ensures { result ≡ tape_bytes z }
{
    bits::oct(z.inputs + 2 * z.ands)
}

// The number of broadcasts.
pub(crate) fn broadcasts(z: Sizes) -> usize
    requires { z.ands + z.outputs ≤ 4194304 }
    ensures { result ≡ z.ands + z.outputs }
{
    z.ands + z.outputs
}

// Loads what stands in the memory for a run on a witness, and its masked inputs, which masked takes too.
pub(crate) fn load_witness(
    s: &[u8],
    z: Sizes,
    n: usize,
    witness: &[u8],
    masked: &mut [u8],
    memory: &mut [u8],
)
    requires { Held s.now z n memory.old × ((length witness.now ≡ oct z.inputs) × (length masked.old ≡ oct z.inputs)) }
    ensures masked_after { masked.new ≡ masked_inputs (circuit_of s.now) n witness.now (tapes_held z n memory.old) }
    ensures memory_after { memory.new ≡ values_loaded z n (tapes_held z n memory.old) (corrections_held z memory.old) (masked_inputs (circuit_of s.now) n witness.now (tapes_held z n memory.old)) memory.old }
{
    let l = layout(z);
    let len = tape_bytes(z);
    load_words(l, n, len, memory);
    mask_inputs(l, z.inputs, witness, memory, masked);
    load_inputs(l, z.inputs, masked, memory);
}

// Loads what stands in the memory for a replay, its masked inputs, and party p's row of broadcasts.
pub(crate) fn load_showing(
    s: &[u8],
    z: Sizes,
    n: usize,
    p: usize,
    masked: &[u8],
    row: &[u8],
    memory: &mut [u8],
)
    requires { Held s.now z n memory.old × ((length masked.now ≡ oct z.inputs) × (length row.now ≡ broadcast_bytes z)) }
    ensures { memory.new ≡ showing_loaded z n p (tapes_held z n memory.old) (corrections_held z memory.old) masked.now row.now memory.old }
{
    let l = layout(z);
    let len = tape_bytes(z);
    let first = broadcast_word(l, 0);
    let sent = broadcasts(z);
    load_words(l, n, len, memory);
    load_inputs(l, z.inputs, masked, memory);
    put_party(l, first, p, row, sent, memory);
}
