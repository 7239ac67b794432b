// What the run begins with: the tapes as words, the masked inputs with their masks, no corrections.
ghost use Rattle.std.specs.Prelude.{◌≡◌, ◌+◌, ◌*◌, ◌≤◌, length, drop};
ghost use Rattle.bits.specs.Bits.{oct};
ghost use Rattle.circuit.specs.File.{circuit_of};
ghost use Rattle.plain.specs.Showing.{masked_inputs};
ghost use Rattle.planes.specs.Steps.{Room, rows_at};
ghost use Rattle.packed.specs.Steps.{tapes_held, Held};
ghost use Rattle.correcting.specs.Steps.{corrections_cleared, tapes_loaded, masks_loaded, begun};

use circuit::Sizes;
use packed::loading::{clear_words, mask_inputs, tape_bytes};
use planes::Layout;
use planes::places::{broadcast_word, corrections_at, put_masked, put_share, rows_at, tape};
use planes::tapes::load_rows;
use walk::layout;

// Sets the corrections to zero.
fn clear_corrections(l: Layout, memory: &mut [u8])
    requires { Room l memory.old × (rows_at l ≤ length memory.old) }
    ensures { memory.new ≡ corrections_cleared l memory.old }
{
    let at = corrections_at(l);
    let rows = rows_at(l);
    bits::clear(&mut memory[at..rows]);
}

// Brings the tape rows of n parties, of len bytes each, into the tape words, with zero after them.
fn load_tapes(l: Layout, n: usize, len: usize, memory: &mut [u8])
    requires { Room l memory.old × ((n ≤ 64) × ((rows_at l + n * len ≤ length memory.old) × (8 * len ≤ l.inputs + 2 * l.ands + 7))) }
    ensures { memory.new ≡ tapes_loaded l n (drop (rows_at l) memory.old) len memory.old }
{
    load_rows(l, memory, len, n);
    clear_words(l, broadcast_word(l, l.ands), l.outputs + 7, memory);
}

// Gives the first count wires their tape words as shares, the parities as masks, and the masked values of a string of bits.
fn load_masks(l: Layout, count: usize, values: &[u8], memory: &mut [u8])
    requires { Room l memory.old × ((count ≤ l.wires) × ((count ≤ l.inputs) × (count ≤ 8 * length values.now))) }
    ensures { memory.new ≡ masks_loaded l count values.now memory.old }
{
    for w in 0..count {
        let x = tape(memory, l, w);
        let v = bits::bit(values, w);
        let k = words::parity(x);
        put_share(memory, l, w, x);
        put_masked(memory, l, w, v + 2 * k);
    }
}

// Loads the tapes that stand in the memory for the run on a witness, and its masked inputs, which masked takes too.
pub(crate) fn load(
    s: &[u8],
    z: Sizes,
    n: usize,
    witness: &[u8],
    masked: &mut [u8],
    memory: &mut [u8],
)
    requires { Held s.now z n memory.old × ((length witness.now ≡ oct z.inputs) × (length masked.old ≡ oct z.inputs)) }
    ensures masked_after { masked.new ≡ masked_inputs (circuit_of s.now) n witness.now (tapes_held z n memory.old) }
    ensures memory_after { memory.new ≡ begun z n (masked_inputs (circuit_of s.now) n witness.now (tapes_held z n memory.old)) memory.old }
{
    let l = layout(z);
    let len = tape_bytes(z);
    clear_corrections(l, memory);
    load_tapes(l, n, len, memory);
    mask_inputs(l, z.inputs, witness, memory, masked);
    load_masks(l, z.inputs, masked, memory);
}
