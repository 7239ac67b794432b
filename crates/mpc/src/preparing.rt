// Preparing the corrections of the AND gates from the tapes.
ghost use Rattle.std.specs.Prelude.{◌≡◌, ◌&&◌, [], ◌∷◌, ◌+◌, ◌*◌, ◌≤◌, eqb, length};
ghost use Rattle.bits.specs.Bits.{oct, pack};
ghost use Rattle.circuit.specs.File.{max_inputs, max_gates, circuit_of};
ghost use Rattle.plain.specs.Showing.{correction_bits};
ghost use Rattle.mpc.specs.Operations.{prepare_legal, prepare_op};
ghost use Rattle.mpc.specs.Answers.{outcome};
ghost use Rattle.mpc.specs.Steps.{Known, TapesFit, Working, memory_bytes, PrepareLent, prepared};

use crate::holding::{give_corrections, hold_tapes};
use crate::lending::work_bytes;
use crate::tests::{holds, holds_rows, unused_rows};
use bits::clear;
use circuit::Sizes;
use masks::chain::make_corrections;
use planes::places::{corrections_at, rows_at};
use reading::read;
use refusal::Refusal;
use walk::layout;

// Brings the tapes into a work memory and makes the corrections there.
pub fn prepare_held(s: &[u8], z: Sizes, n: usize, tapes: &[u8], memory: &mut [u8])
    requires { Known s.now z × (Working z n memory.old × TapesFit z n tapes.now) }
    ensures { memory.new ≡ prepared s.now z n tapes.now memory.old }
{
    let l = layout(z);
    let at = corrections_at(l);
    let rows = rows_at(l);
    hold_tapes(z, n, tapes, memory);
    make_corrections(s, z, n, rows, at, memory);
}

// Makes the corrections in a work memory.
fn prepare_in(s: &[u8], z: Sizes, n: usize, tapes: &[u8], corrections: &mut [u8], memory: &mut [u8])
    requires { Known s.now z × (Working z n memory.old × PrepareLent s.now z n tapes.now corrections.old) }
    ensures { corrections.new ≡ pack (correction_bits (circuit_of s.now) n tapes.now) }
{
    prepare_held(s, z, n, tapes, memory);
    give_corrections(z, n, memory, corrections);
}

// Whether the lengths of what prepare is lent are as stated.
fn prepare_lengths(z: Sizes, n: usize, tapes: &[u8], corrections: &[u8]) -> bool
    requires { (n ≤ 64) × ((z.inputs ≤ max_inputs) × (z.ands ≤ max_gates)) }
    ensures { result ≡ eqb (length tapes.now) (n * oct (z.inputs + 2 * z.ands)) && eqb (length corrections.now) (oct z.ands) }
{
    holds_rows(tapes, n, z.inputs + 2 * z.ands) && holds(corrections, z.ands)
}

// Tests what is lent, and makes the corrections of a legal circuit.
fn prepare_lent(
    s: &[u8],
    z: Sizes,
    n: u32,
    tapes: &[u8],
    corrections: &mut [u8],
    memory: &mut [u8],
) -> Result<(), Refusal>
    requires { Known s.now z × (memory_bytes z ≤ length memory.old) }
    ensures { outcome result (corrections.new ∷ []) ≡ prepare_legal n tapes.now corrections.old (circuit_of s.now) }
{
    if parties::height(n).is_none() {
        return Err(Refusal::Parameter);
    }
    let k = n as usize;
    if !prepare_lengths(z, k, tapes, corrections) {
        return Err(Refusal::BufferLength);
    }
    if !unused_rows(s, z, k, tapes) {
        return Err(Refusal::UnusedBits);
    }
    prepare_in(s, z, k, tapes, corrections, memory);
    Ok(())
}

// Fills the corrections from the tapes of n parties, or refuses and leaves them as they were. The work buffer is left all zero, but for
// a refusal up to its test.
pub fn prepare(
    s: &[u8],
    n: u32,
    tapes: &[u8],
    corrections: &mut [u8],
    work: &mut [u8],
) -> Result<(), Refusal>
    ensures { outcome result (corrections.new ∷ work.new ∷ []) ≡ prepare_op s.now n tapes.now corrections.old work.old }
{
    let z = read(s)?;
    let need = work_bytes(z);
    if work.len() < need {
        return Err(Refusal::BufferLength);
    }
    let ended = prepare_lent(s, z, n, tapes, corrections, work);
    clear(work);
    ended
}
