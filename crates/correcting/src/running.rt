// The walk along the gates that makes the corrections, and the run.
ghost use Rattle.std.specs.Prelude.{◌≡◌, true, ◌+◌, ◌≤◌, ◌<◌, length};
ghost use Rattle.bits.specs.Bits.{oct, pack};
ghost use Rattle.circuit.specs.File.{circuit_of};
ghost use Rattle.circuit.specs.Steps.{within, and_one};
ghost use Rattle.plain.specs.Tapes.{unused_rows};
ghost use Rattle.plain.specs.Showing.{masked_inputs, correction_bits, honest_run};
ghost use Rattle.planes.specs.Steps.{rows_at};
ghost use Rattle.gates.specs.Steps.{Fit};
ghost use Rattle.walk.specs.Steps.{layout_of, Ready};
ghost use Rattle.packed.specs.Steps.{tapes_held, corrections_held, Held};
ghost use Rattle.correcting.specs.Steps.{correct_step, gate_step, walked, ran_memory};

use crate::loading::load;
use circuit::records::{and_one, record};
use circuit::{Gate, Sizes};
use correcting_gate::correct;
use gates::{inv_gate, xor_gate};
use planes::Layout;
use planes::places::{
    broadcast_word, corrections_at, mask_word, masked, put_masked, put_share, put_tape, share, tape,
};
use walk::{broadcast_outputs, layout};
use words::place;

// AND gate t of wires a and b into c, with its correction; `last` has party n − 1's place.
fn and_gate(memory: &mut [u8], l: Layout, a: usize, b: usize, c: usize, t: usize, last: u64)
    requires { Fit l a b c t memory.old × ((t < l.ands) × (rows_at l ≤ length memory.old)) }
    ensures { memory.new ≡ correct_step l a b c t last memory.old }
{
    let o = mask_word(l, t);
    let z = broadcast_word(l, t);
    let x = masked(memory, l, a);
    let y = masked(memory, l, b);
    let sa = share(memory, l, a);
    let sb = share(memory, l, b);
    let masks = tape(memory, l, o);
    let products = tape(memory, l, z);
    let r = correct(x, y, sa, sb, products, masks, last);
    let at = 8 * corrections_at(l) + t;
    bits::put_bit(memory, at, r.correction);
    put_tape(memory, l, z, r.word);
    put_share(memory, l, c, masks);
    put_masked(memory, l, c, r.wire);
}

// A gate into wire c, with t AND gates before it.
fn gate(memory: &mut [u8], l: Layout, g: Gate, c: usize, t: usize, last: u64)
    requires { Fit l c c c (t + and_one g) memory.old × (within l.wires g × (rows_at l ≤ length memory.old)) }
    ensures { memory.new ≡ gate_step l g c t last memory.old }
{
    match g {
        Gate::Xor(a, b) => xor_gate(memory, l, a, b, c),
        Gate::And(a, b) => and_gate(memory, l, a, b, c, t, last),
        Gate::Inv(a) => inv_gate(memory, l, a, c),
    }
}

// Runs the gates in chain order.
fn walk(s: &[u8], z: Sizes, head: usize, last: u64, memory: &mut [u8])
    requires { Ready s.now z head memory.old × (rows_at (layout_of z) ≤ length memory.old) }
    ensures { memory.new ≡ walked (layout_of z) last s.now z.gates head 0 memory.old }
{
    let l = layout(z);
    let mut slot = head;
    let mut t = 0;
    for _ in 0..z.gates {
        let r = record(s, z.outputs, slot);
        gate(memory, l, r.gate, z.inputs + (slot - 1), t, last);
        t += and_one(r.gate);
        slot = r.next;
    }
}

// Runs a legal circuit on a witness, with the tapes that stand in the memory, whose unused bits are zero: fills the masked inputs and the
// outputs, and leaves the corrections and the broadcasts in the memory.
pub fn run_honest(
    s: &[u8],
    z: Sizes,
    n: usize,
    witness: &[u8],
    masked: &mut [u8],
    y: &mut [u8],
    memory: &mut [u8],
)
    requires { Held s.now z n memory.old × ((unused_rows (circuit_of s.now) n (tapes_held z n memory.old) n ≡ true) × ((length witness.now ≡ oct z.inputs) × ((length masked.old ≡ oct z.inputs) × (length y.old ≡ oct z.outputs)))) }
    ensures masked_after { masked.new ≡ masked_inputs (circuit_of s.now) n witness.now (tapes_held z n memory.old) }
    ensures y_after { y.new ≡ pack (honest_run (circuit_of s.now) n witness.now (tapes_held z n memory.old)).output }
    ensures memory_after { memory.new ≡ ran_memory s.now z n witness.now memory.old }
    ensures memory_after_2 { corrections_held z memory.new ≡ pack (correction_bits (circuit_of s.now) n (tapes_held z n memory.old)) }
{
    let head = circuit::records::head(s);
    let last = place(n - 1);
    load(s, z, n, witness, masked, memory);
    walk(s, z, head, last, memory);
    broadcast_outputs(s, z, 0, memory, y);
}
