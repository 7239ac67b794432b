// The parts of a showing: the tapes with a row hidden, the corrections, and the bits of the hidden row of broadcasts that a cut shows.
#![tactic(auto)]

mod cuts;

ghost use Rattle.std.specs.Prelude.{◌≡◌, cond, ◌&&◌, ◌++◌, suc, ◌+◌, ◌*◌, ◌≤◌, ◌<◌, eqb, ltb, length, take, drop, replicate};
ghost use Rattle.bits.specs.Bits.{tabulate, oct, pack};
ghost use Rattle.circuit.specs.File.{circuit_of};
ghost use Rattle.plain.specs.Showing.{shown_bits};
ghost use Rattle.planes.specs.Steps.{Room};
ghost use Rattle.walk.specs.Steps.{layout_of};
ghost use Rattle.packed.specs.Steps.{broadcast_bytes, corrections_held, sent_bit};
ghost use Rattle.mpc.specs.Steps.{Known, Placed};

use bits::copy;
use circuit::Sizes;
use cuts::shown_bits;
use mpc::holding::give_corrections;
use packed::running::pack_row;
use walk::layout;

// Copies the tapes with row p all zero.
pub fn hide_row(tapes: &[u8], len: usize, p: usize, out: &mut [u8])
    requires { (length out.old ≡ length tapes.now) × (p * len + len ≤ length tapes.now) }
    ensures { out.new ≡ take (p * len) tapes.now ++ replicate len 0 ++ drop (p * len + len) tapes.now }
{
    copy(tapes, out);
    let a = p * len;
    let e = a + len;
    out[a..e].fill(0);
}

// Shows the corrections that stand in the memory, or zeros where they are the hidden party's.
pub fn show_corrections(z: Sizes, n: usize, p: usize, memory: &[u8], out: &mut [u8])
    requires { Placed z n memory.now × ((p < n) × (length out.old ≡ oct z.ands)) }
    ensures { out.new ≡ cond (eqb (suc p) n) (replicate (oct z.ands) 0) (corrections_held z memory.now) }
{
    if p + 1 == n {
        out.fill(0);
    } else {
        give_corrections(z, n, memory, out);
    }
}

// Shows the bits of party p's row of broadcasts that the cut shows.
pub fn show_row(s: &[u8], z: Sizes, p: usize, cut: usize, memory: &[u8], row: &mut [u8])
    requires { Known s.now z × (Room (layout_of z) memory.now × ((p < 64) × ((cut ≤ z.gates) × (length row.old ≡ broadcast_bytes z)))) }
    ensures { row.new ≡ pack (tabulate (8 * broadcast_bytes z) (λ t. ltb t (shown_bits (circuit_of s.now) cut) && sent_bit (layout_of z) memory.now p t)) }
{
    let l = layout(z);
    let head = circuit::records::head(s);
    let shown = shown_bits(s, z, head, cut);
    pack_row(memory, l, p, shown, row);
}
