// Showing a run with one party hidden, cut after some of its gates.
#![tactic(auto)]

ghost use Rattle.std.specs.Prelude.{◌≡◌, ◌&&◌, [], ◌∷◌, ◌+◌, ◌*◌, ◌≤◌, ◌<◌, eqb, length};
ghost use Rattle.bits.specs.Bits.{oct};
ghost use Rattle.circuit.specs.File.{max_inputs, max_outputs, max_gates, circuit_of};
ghost use Rattle.plain.specs.Showing.{masked_inputs, showing};
ghost use Rattle.packed.specs.Steps.{tapes_held, ran_memory};
ghost use Rattle.mpc.specs.Operations.{parts_of, show_legal, show_op};
ghost use Rattle.mpc.specs.Answers.{outcome};
ghost use Rattle.mpc.specs.Steps.{Known, Working, memory_bytes, ShowLent, ShowingFits};

use bits::clear;
use circuit::Sizes;
use mpc::lending::work_bytes;
use mpc::preparing::prepare_held;
use mpc::tests::{holds, holds_rows, unused_rows};
use packed::running::run_held;
use reading::read;
use refusal::Refusal;
use shown_parts::{hide_row, show_corrections, show_row};

// Runs the circuit on a witness, with the tapes and the corrections that stand in the memory; its outputs are not shown.
fn run_honest(s: &[u8], z: Sizes, n: usize, witness: &[u8], masked: &mut [u8], memory: &mut [u8])
    requires { Known s.now z × (Working z n memory.old × ((length witness.now ≡ oct z.inputs) × (length masked.old ≡ oct z.inputs))) }
    ensures masked_after { masked.new ≡ masked_inputs (circuit_of s.now) n witness.now (tapes_held z n memory.old) }
    ensures memory_after { memory.new ≡ ran_memory s.now z n witness.now memory.old }
{
    let mut y = [0u8; 32];
    let size = bits::oct(z.outputs);
    run_held(s, z, n, witness, masked, &mut y[..size], memory);
}

// Runs the circuit in a work memory and fills the cut's four parts.
fn show_in(
    s: &[u8],
    z: Sizes,
    n: usize,
    p: usize,
    cut: usize,
    witness: &[u8],
    tapes: &[u8],
    blanked: &mut [u8],
    corrections: &mut [u8],
    masked: &mut [u8],
    row: &mut [u8],
    memory: &mut [u8],
)
    requires { Known s.now z × (Working z n memory.old × ((p < n) × ((cut ≤ z.gates) × (ShowLent s.now z n witness.now tapes.now × ShowingFits z n blanked.old corrections.old masked.old row.old)))) }
    ensures { blanked.new ∷ corrections.new ∷ masked.new ∷ row.new ∷ [] ≡ parts_of (showing (circuit_of s.now) n p cut witness.now tapes.now) }
{
    let len = bits::oct(z.inputs + 2 * z.ands);
    prepare_held(s, z, n, tapes, memory);
    show_corrections(z, n, p, memory, corrections);
    run_honest(s, z, n, witness, masked, memory);
    show_row(s, z, p, cut, memory, row);
    hide_row(tapes, len, p, blanked);
}

// Whether the lengths of what show is lent are as stated.
fn show_lengths(
    z: Sizes,
    n: usize,
    witness: &[u8],
    tapes: &[u8],
    blanked: &[u8],
    corrections: &[u8],
    masked: &[u8],
    row: &[u8],
) -> bool
    requires { (n ≤ 64) × ((z.inputs ≤ max_inputs) × ((z.outputs ≤ max_outputs) × (z.ands ≤ max_gates))) }
    ensures { result ≡ eqb (length witness.now) (oct z.inputs) && eqb (length tapes.now) (n * oct (z.inputs + 2 * z.ands)) && (eqb (length blanked.now) (n * oct (z.inputs + 2 * z.ands)) && eqb (length corrections.now) (oct z.ands) && eqb (length masked.now) (oct z.inputs) && eqb (length row.now) (oct (z.ands + z.outputs))) }
{
    holds(witness, z.inputs)
        && holds_rows(tapes, n, z.inputs + 2 * z.ands)
        && holds_rows(blanked, n, z.inputs + 2 * z.ands)
        && holds(corrections, z.ands)
        && holds(masked, z.inputs)
        && holds(row, z.ands + z.outputs)
}

// Tests what is lent, and shows the run of a legal circuit.
fn show_lent(
    s: &[u8],
    z: Sizes,
    n: u32,
    p: u32,
    cut: u32,
    witness: &[u8],
    tapes: &[u8],
    blanked: &mut [u8],
    corrections: &mut [u8],
    masked: &mut [u8],
    row: &mut [u8],
    memory: &mut [u8],
) -> Result<(), Refusal>
    requires { Known s.now z × (memory_bytes z ≤ length memory.old) }
    ensures { outcome result (blanked.new ∷ corrections.new ∷ masked.new ∷ row.new ∷ []) ≡ show_legal n p cut witness.now tapes.entry.now (record { tapes = blanked.old; corrections = corrections.old; masked_inputs = masked.old; row = row.old }) (circuit_of s.now) }
{
    if parties::height(n).is_none() {
        return Err(Refusal::Parameter);
    }
    let g = cut as usize;
    if n <= p || z.gates < g {
        return Err(Refusal::Index);
    }
    let k = n as usize;
    if !show_lengths(z, k, witness, tapes, blanked, corrections, masked, row) {
        return Err(Refusal::BufferLength);
    }
    // Both run, whatever the secret bytes hold.
    let clean = bits::unused_zero(witness, z.inputs) & unused_rows(s, z, k, tapes);
    if !clean {
        return Err(Refusal::UnusedBits);
    }
    show_in(
        s,
        z,
        k,
        p as usize,
        g,
        witness,
        tapes,
        blanked,
        corrections,
        masked,
        row,
        memory,
    );
    Ok(())
}

// Shows the run with party p hidden, cut after some gates: fills the four parts, or refuses and leaves them as they were. The work buffer
// is left all zero, but for a refusal up to its test.
pub fn show(
    s: &[u8],
    n: u32,
    p: u32,
    cut: u32,
    witness: &[u8],
    tapes: &[u8],
    blanked: &mut [u8],
    corrections: &mut [u8],
    masked: &mut [u8],
    row: &mut [u8],
    work: &mut [u8],
) -> Result<(), Refusal>
    ensures { outcome result (blanked.new ∷ corrections.new ∷ masked.new ∷ row.new ∷ work.new ∷ []) ≡ show_op s.now n p cut witness.now tapes.entry.now (record { tapes = blanked.old; corrections = corrections.old; masked_inputs = masked.old; row = row.old }) work.old }
{
    let z = read(s)?;
    let need = work_bytes(z);
    if work.len() < need {
        return Err(Refusal::BufferLength);
    }
    let ended = show_lent(
        s,
        z,
        n,
        p,
        cut,
        witness,
        tapes,
        blanked,
        corrections,
        masked,
        row,
        work,
    );
    clear(work);
    ended
}
