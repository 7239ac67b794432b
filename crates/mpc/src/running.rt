// Running a circuit on a witness, with tapes and corrections as lent.
ghost use Rattle.std.specs.Prelude.{◌≡◌, ◌&&◌, [], ◌∷◌, ◌+◌, ◌*◌, ◌≤◌, eqb, length};
ghost use Rattle.bits.specs.Bits.{oct};
ghost use Rattle.circuit.specs.File.{max_inputs, max_outputs, max_gates, circuit_of};
ghost use Rattle.mpc.specs.Operations.{ran, run_legal, run_op};
ghost use Rattle.mpc.specs.Answers.{outcome};
ghost use Rattle.mpc.specs.Steps.{Known, Working, memory_bytes, RunLent};

use crate::holding::hold;
use crate::lending::work_bytes;
use crate::tests::{holds, holds_rows, unused_rows};
use bits::clear;
use circuit::Sizes;
use packed::running::{give_rows, run_held};
use reading::read;
use refusal::Refusal;

// Runs the circuit in a work memory.
fn run_in(
    s: &[u8],
    z: Sizes,
    n: usize,
    witness: &[u8],
    tapes: &[u8],
    corrections: &[u8],
    masked: &mut [u8],
    rows: &mut [u8],
    y: &mut [u8],
    memory: &mut [u8],
)
    requires { Known s.now z × (Working z n memory.old × ((length witness.now ≡ oct z.inputs) × RunLent z n tapes.now corrections.now masked.old rows.old y.old)) }
    ensures { masked.new ∷ rows.new ∷ y.new ∷ [] ≡ ran (circuit_of s.now) n witness.now tapes.now corrections.now }
{
    hold(z, n, tapes, corrections, memory);
    run_held(s, z, n, witness, masked, y, memory);
    give_rows(z, n, memory, rows);
}

// Whether the lengths of what run is lent are as stated.
fn run_lengths(
    z: Sizes,
    n: usize,
    witness: &[u8],
    tapes: &[u8],
    corrections: &[u8],
    masked: &[u8],
    rows: &[u8],
    y: &[u8],
) -> bool
    requires { (n ≤ 64) × ((z.inputs ≤ max_inputs) × ((z.outputs ≤ max_outputs) × (z.ands ≤ max_gates))) }
    ensures { result ≡ eqb (length witness.now) (oct z.inputs) && eqb (length tapes.now) (n * oct (z.inputs + 2 * z.ands)) && eqb (length corrections.now) (oct z.ands) && eqb (length masked.now) (oct z.inputs) && eqb (length rows.now) (n * oct (z.ands + z.outputs)) && eqb (length y.now) (oct z.outputs) }
{
    holds(witness, z.inputs)
        && holds_rows(tapes, n, z.inputs + 2 * z.ands)
        && holds(corrections, z.ands)
        && holds(masked, z.inputs)
        && holds_rows(rows, n, z.ands + z.outputs)
        && holds(y, z.outputs)
}

// Tests what is lent, and runs a legal circuit.
fn run_lent(
    s: &[u8],
    z: Sizes,
    n: u32,
    witness: &[u8],
    tapes: &[u8],
    corrections: &[u8],
    masked: &mut [u8],
    rows: &mut [u8],
    y: &mut [u8],
    memory: &mut [u8],
) -> Result<(), Refusal>
    requires { Known s.now z × (memory_bytes z ≤ length memory.old) }
    ensures { outcome result (masked.new ∷ rows.new ∷ y.new ∷ []) ≡ run_legal n witness.now tapes.now corrections.now masked.old rows.old y.old (circuit_of s.now) }
{
    if parties::height(n).is_none() {
        return Err(Refusal::Parameter);
    }
    let k = n as usize;
    if !run_lengths(z, k, witness, tapes, corrections, masked, rows, y) {
        return Err(Refusal::BufferLength);
    }
    // All three run, whatever the secret bytes hold.
    let clean = bits::unused_zero(witness, z.inputs)
        & unused_rows(s, z, k, tapes)
        & bits::unused_zero(corrections, z.ands);
    if !clean {
        return Err(Refusal::UnusedBits);
    }
    run_in(
        s,
        z,
        k,
        witness,
        tapes,
        corrections,
        masked,
        rows,
        y,
        memory,
    );
    Ok(())
}

// Runs the circuit on a witness: fills the masked inputs, n broadcast rows and y, or refuses and leaves them as they were. The work buffer
// is left all zero, but for a refusal up to its test.
pub fn run(
    s: &[u8],
    n: u32,
    witness: &[u8],
    tapes: &[u8],
    corrections: &[u8],
    masked: &mut [u8],
    rows: &mut [u8],
    y: &mut [u8],
    work: &mut [u8],
) -> Result<(), Refusal>
    ensures { outcome result (masked.new ∷ rows.new ∷ y.new ∷ work.new ∷ []) ≡ run_op s.now n witness.now tapes.now corrections.now masked.old rows.old y.old work.old }
{
    let z = read(s)?;
    let need = work_bytes(z);
    if work.len() < need {
        return Err(Refusal::BufferLength);
    }
    let ended = run_lent(s, z, n, witness, tapes, corrections, masked, rows, y, work);
    clear(work);
    ended
}
