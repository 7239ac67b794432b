// Runs and replays in a work memory that holds the tapes and the corrections, and the rows of their broadcasts.
ghost use Rattle.std.specs.Prelude.{◌≡◌, ◌&&◌, ◌+◌, ◌*◌, ◌≤◌, ◌<◌, ltb, length};
ghost use Rattle.bits.specs.Bits.{tabulate, oct, bit_val, test_bit, bit_at, pack};
ghost use Rattle.circuit.specs.File.{circuit_of};
ghost use Rattle.plain.specs.Showing.{masked_inputs, run_on, replay_of};
ghost use Rattle.planes.specs.Steps.{Room, tape_words, broadcast_word};
ghost use Rattle.walk.specs.Steps.{layout_of};
ghost use Rattle.packed.specs.Steps.{broadcast_bytes, showing_of, sent_bit, rows_sent, tapes_held, corrections_held, Held, ran_memory, replayed_memory};

use crate::loading::{load_showing, load_witness};
use circuit::Sizes;
use planes::Layout;
use planes::places::{broadcast_word, tape};
use planes::rows::store_rows;
use walk::{layout, run};
use words::place;

// The bytes of a row of broadcasts.
pub fn row_bytes(z: Sizes) -> usize
    requires { z.ands + z.outputs ≤ 4194304 }
    ensures { result ≡ broadcast_bytes z }
{
    bits::oct(z.ands + z.outputs)
}

// Runs a legal circuit on a witness, with the tapes and the corrections that stand in the memory: fills the masked inputs and the
// outputs, and leaves the broadcasts in the memory.
pub fn run_held(
    s: &[u8],
    z: Sizes,
    n: usize,
    witness: &[u8],
    masked: &mut [u8],
    y: &mut [u8],
    memory: &mut [u8],
)
    requires { Held s.now z n memory.old × ((length witness.now ≡ oct z.inputs) × ((length masked.old ≡ oct z.inputs) × (length y.old ≡ oct z.outputs))) }
    ensures masked_after { masked.new ≡ masked_inputs (circuit_of s.now) n witness.now (tapes_held z n memory.old) }
    ensures y_after { y.new ≡ pack (run_on (circuit_of s.now) n witness.now (tapes_held z n memory.old) (bit_at (corrections_held z memory.old))).output }
    ensures memory_after { memory.new ≡ ran_memory s.now z n witness.now memory.old }
{
    let hidden = place(n);
    load_witness(s, z, n, witness, masked, memory);
    run(s, z, hidden, memory, y);
}

// Replays a showing with party p hidden, with the tapes and the corrections that stand in the memory: fills the outputs, and leaves the
// broadcasts in the memory.
pub fn replay_held(
    s: &[u8],
    z: Sizes,
    n: usize,
    p: usize,
    masked: &[u8],
    row: &[u8],
    y: &mut [u8],
    memory: &mut [u8],
)
    requires { Held s.now z n memory.old × ((p < n) × ((length masked.now ≡ oct z.inputs) × ((length row.now ≡ broadcast_bytes z) × (length y.old ≡ oct z.outputs)))) }
    ensures y_after { y.new ≡ pack (replay_of (circuit_of s.now) n p (showing_of (tapes_held z n memory.old) (corrections_held z memory.old) masked.now row.now)).output }
    ensures memory_after { memory.new ≡ replayed_memory s.now z n p masked.now row.now memory.old }
{
    let hidden = place(p);
    load_showing(s, z, n, p, masked, row, memory);
    run(s, z, hidden, memory, y);
}

// Fills the rows of n parties, of len bytes each, with their broadcasts in the memory.
pub fn give_rows(z: Sizes, n: usize, memory: &[u8], rows: &mut [u8])
    requires { Room (layout_of z) memory.now × ((n ≤ 64) × (length rows.old ≡ n * broadcast_bytes z)) }
    ensures { rows.new ≡ rows_sent (layout_of z) n (broadcast_bytes z) memory.now }
{
    let l = layout(z);
    let len = row_bytes(z);
    store_rows(l, memory, n, rows, len);
}

// Bit i of a word, as 0 or 1.
fn word_bit(x: u64, i: usize) -> u8
    requires { i < 64 }
    ensures { result ≡ bit_val (test_bit x i) }
{
    ((x >> (i as u64)) % 2) as u8
}

// Packs party i's bits of the first count broadcasts, the rest zero.
pub fn pack_row(memory: &[u8], l: Layout, i: usize, count: usize, out: &mut [u8])
    requires { Room l memory.now × ((i < 64) × ((broadcast_word l count ≤ tape_words l) × (oct count ≤ length out.old))) }
    ensures { out.new ≡ pack (tabulate (8 * length out.old) (λ t. ltb t count && sent_bit l memory.now i t)) }
{
    bits::clear(out);
    for t in 0..count {
        let x = tape(memory, l, broadcast_word(l, t));
        bits::put_bit(out, t, word_bit(x, i));
    }
}
