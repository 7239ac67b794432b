// The tapes and the corrections of a run, in their places in the work memory.
ghost use Rattle.std.specs.Prelude.{◌≡◌, ◌≤◌, length};
ghost use Rattle.bits.specs.Bits.{oct};
ghost use Rattle.packed.specs.Steps.{corrections_held};
ghost use Rattle.mpc.specs.Steps.{Placed, TapesFit, with_tapes, with_both};

use bits::copy;
use circuit::Sizes;
use planes::places::{corrections_at, leaves_at, rows_at};
use walk::layout;

// Brings the tapes of n parties into the memory.
pub(crate) fn hold_tapes(z: Sizes, n: usize, tapes: &[u8], memory: &mut [u8])
    requires { Placed z n memory.old × TapesFit z n tapes.now }
    ensures { memory.new ≡ with_tapes z tapes.now memory.old }
{
    let l = layout(z);
    let rows = rows_at(l);
    let end = leaves_at(l, n);
    copy(tapes, &mut memory[rows..end]);
}

// Brings the tapes of n parties and the corrections into the memory.
pub fn hold(z: Sizes, n: usize, tapes: &[u8], corrections: &[u8], memory: &mut [u8])
    requires { Placed z n memory.old × (TapesFit z n tapes.now × (length corrections.now ≡ oct z.ands)) }
    ensures { memory.new ≡ with_both z tapes.now corrections.now memory.old }
{
    let l = layout(z);
    let at = corrections_at(l);
    let rows = rows_at(l);
    hold_tapes(z, n, tapes, memory);
    copy(corrections, &mut memory[at..rows]);
}

// Fills the corrections with those that stand in the memory.
pub fn give_corrections(z: Sizes, n: usize, memory: &[u8], corrections: &mut [u8])
    requires { Placed z n memory.now × (length corrections.old ≡ oct z.ands) }
    ensures { corrections.new ≡ corrections_held z memory.now }
{
    let l = layout(z);
    let at = corrections_at(l);
    let rows = rows_at(l);
    copy(&memory[at..rows], corrections);
}
