// Replaying an opened run: the hidden party's broadcasts are those of its row as lent.
#![tactic(auto)]

ghost use Rattle.std.specs.Prelude.{◌≡◌, cond, ◌&&◌, [], ◌∷◌, ◌+◌, ◌*◌, ◌≤◌, ◌<◌, eqb, length};
ghost use Rattle.bits.specs.Bits.{oct, pack};
ghost use Rattle.bits.specs.Bytes.{same_bytes};
ghost use Rattle.circuit.specs.File.{max_inputs, max_outputs, max_gates, circuit_of};
ghost use Rattle.plain.specs.Showing.{rows_of, replay_of};
ghost use Rattle.mpc.specs.Operations.{unused_showing, replay_legal, replay_op};
ghost use Rattle.mpc.specs.Answers.{outcome};
ghost use Rattle.mpc.specs.Steps.{Known, Working, memory_bytes, ShowingFits};

use bits::clear;
use circuit::Sizes;
use mpc::holding::hold;
use mpc::lending::work_bytes;
use mpc::tests::{holds, holds_rows, unused_rows};
use packed::running::{give_rows, replay_held};
use reading::read;
use refusal::Refusal;

// Replays in a work memory. Where the output is y, fills the rows and answers true; else answers false.
fn replay_in(
    s: &[u8],
    z: Sizes,
    n: usize,
    p: usize,
    tapes: &[u8],
    corrections: &[u8],
    masked: &[u8],
    row: &[u8],
    y: &[u8],
    rows: &mut [u8],
    memory: &mut [u8],
) -> bool
    requires { Known s.now z × (Working z n memory.old × ((p < n) × (ShowingFits z n tapes.now corrections.now masked.now row.now × (length rows.old ≡ n * oct (z.ands + z.outputs))))) }
    ensures { (result ≡ same_bytes (pack (replay_of (circuit_of s.now) n p (record { tapes = tapes.entry.now; corrections = corrections.now; masked_inputs = masked.now; row = row.now })).output) y.now) × (rows.new ≡ cond result (rows_of n (replay_of (circuit_of s.now) n p (record { tapes = tapes.entry.now; corrections = corrections.now; masked_inputs = masked.now; row = row.now }))) rows.old) }
{
    let mut part = [0u8; 32];
    let size = bits::oct(z.outputs);
    hold(z, n, tapes, corrections, memory);
    replay_held(s, z, n, p, masked, row, &mut part[..size], memory);
    let same = bits::same(&part[..size], y);
    if same {
        give_rows(z, n, memory, rows);
    }
    same
}

// Whether the lengths of what replay is lent are as stated.
fn replay_lengths(
    z: Sizes,
    n: usize,
    tapes: &[u8],
    corrections: &[u8],
    masked: &[u8],
    row: &[u8],
    y: &[u8],
    rows: &[u8],
) -> bool
    requires { (n ≤ 64) × ((z.inputs ≤ max_inputs) × ((z.outputs ≤ max_outputs) × (z.ands ≤ max_gates))) }
    ensures { result ≡ (eqb (length tapes.now) (n * oct (z.inputs + 2 * z.ands)) && eqb (length corrections.now) (oct z.ands) && eqb (length masked.now) (oct z.inputs) && eqb (length row.now) (oct (z.ands + z.outputs))) && eqb (length y.now) (oct z.outputs) && eqb (length rows.now) (n * oct (z.ands + z.outputs)) }
{
    holds_rows(tapes, n, z.inputs + 2 * z.ands)
        && holds(corrections, z.ands)
        && holds(masked, z.inputs)
        && holds(row, z.ands + z.outputs)
        && holds(y, z.outputs)
        && holds_rows(rows, n, z.ands + z.outputs)
}

// Whether every bit of a showing that is not used is zero, row p of the tapes and a hidden party's corrections too.
fn unused_showing(
    s: &[u8],
    z: Sizes,
    n: usize,
    p: usize,
    tapes: &[u8],
    corrections: &[u8],
    masked: &[u8],
    row: &[u8],
) -> bool
    requires { Known s.now z × ((n ≤ 64) × (p < n)) }
    ensures { result ≡ unused_showing (circuit_of s.now) n p (record { tapes = tapes.entry.now; corrections = corrections.now; masked_inputs = masked.now; row = row.now }) }
{
    let len = bits::oct(z.inputs + 2 * z.ands);
    let own = bits::row(tapes, len, p);
    let none = (p + 1 != n) | bits::unused_zero(corrections, 0);
    // All run, whatever the bytes hold.
    unused_rows(s, z, n, tapes)
        & bits::unused_zero(corrections, z.ands)
        & bits::unused_zero(masked, z.inputs)
        & bits::unused_zero(row, z.ands + z.outputs)
        & bits::unused_zero(own, 0)
        & none
}

// Tests what is lent, and replays a run of a legal circuit.
fn replay_lent(
    s: &[u8],
    z: Sizes,
    n: u32,
    p: u32,
    tapes: &[u8],
    corrections: &[u8],
    masked: &[u8],
    row: &[u8],
    y: &[u8],
    rows: &mut [u8],
    memory: &mut [u8],
) -> Result<(), Refusal>
    requires { Known s.now z × (memory_bytes z ≤ length memory.old) }
    ensures { outcome result (rows.new ∷ []) ≡ replay_legal n p (record { tapes = tapes.entry.now; corrections = corrections.now; masked_inputs = masked.now; row = row.now }) y.now rows.old (circuit_of s.now) }
{
    if parties::height(n).is_none() {
        return Err(Refusal::Parameter);
    }
    if n <= p {
        return Err(Refusal::Index);
    }
    let k = n as usize;
    let q = p as usize;
    if !replay_lengths(z, k, tapes, corrections, masked, row, y, rows) {
        return Err(Refusal::BufferLength);
    }
    let clean = unused_showing(s, z, k, q, tapes, corrections, masked, row)
        & bits::unused_zero(y, z.outputs);
    if !clean {
        return Err(Refusal::UnusedBits);
    }
    let good = replay_in(s, z, k, q, tapes, corrections, masked, row, y, rows, memory);
    if good { Ok(()) } else { Err(Refusal::Output) }
}

// Replays an opened run: fills n broadcast rows where its output is y, or refuses and leaves them as they were. The work buffer is left
// all zero, but for a refusal up to its test.
pub fn replay(
    s: &[u8],
    n: u32,
    p: u32,
    tapes: &[u8],
    corrections: &[u8],
    masked: &[u8],
    row: &[u8],
    y: &[u8],
    rows: &mut [u8],
    work: &mut [u8],
) -> Result<(), Refusal>
    ensures { outcome result (rows.new ∷ work.new ∷ []) ≡ replay_op s.now n p (record { tapes = tapes.entry.now; corrections = corrections.now; masked_inputs = masked.now; row = row.now }) y.now rows.old work.old }
{
    let z = read(s)?;
    let need = work_bytes(z);
    if work.len() < need {
        return Err(Refusal::BufferLength);
    }
    let ended = replay_lent(s, z, n, p, tapes, corrections, masked, row, y, rows, work);
    clear(work);
    ended
}
