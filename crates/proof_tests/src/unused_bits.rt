// The test of the unused bits in the proof.
ghost use Rattle.std.specs.Prelude.{◌≡◌, ◌≤◌, length};
ghost use Rattle.circuit.specs.File.{circuit_of};
ghost use Rattle.mpc.specs.Steps.{Known};
ghost use Rattle.cover.specs.Masters.{cover_bytes};
ghost use Rattle.instance.specs.Stretch.{stretch_bytes};
ghost use Rattle.instance.specs.Opened.{stretch_unused};
ghost use Rattle.instance.specs.Steps.{Tree};
ghost use Rattle.proof.specs.File.{hides};
ghost use Rattle.proof.specs.Steps.{ask_of, asks_in};
ghost use Rattle.proof_tests.specs.Steps.{all_unused, Sized};

use circuit::Sizes;
use instance::checking::unused;
use proof::asking::{asked, stretch_bytes};
use proof::{Counts, HEADER_BYTES};

// Whether the unused bits of the stretch of an instance, of which p is asked, are zero.
pub(crate) fn stretch_unused(s: &[u8], z: Sizes, n: u32, h: u32, p: u32, part: &[u8]) -> bool
    requires { Known s.now z × (Tree n h × ((p ≤ n) × (length part.now ≡ stretch_bytes (circuit_of s.now) n (ask_of n p)))) }
    ensures { result ≡ stretch_unused (circuit_of s.now) n part.now (ask_of n p) }
{
    if p == n {
        return true;
    }
    unused(s, z, n, h, p, part)
}

// Whether the unused bits of all stretches are zero.
pub(crate) fn all_unused(
    s: &[u8],
    z: Sizes,
    k: Counts,
    table: &[u8],
    opened: usize,
    proof: &[u8],
) -> bool
    requires { Known s.now z × (Tree k.parties k.height × (Sized s.now k.instances k.parties table.now proof.now × (opened ≡ cover_bytes k.instances (hides (asks_in k.parties table.now))))) }
    ensures { result ≡ all_unused (circuit_of s.now) k.instances k.parties (asks_in k.parties table.now) proof.now }
{
    let m = k.instances;
    let n = k.parties;
    let h = k.height;
    let mut good = true;
    let mut at = HEADER_BYTES + opened;
    for j in 0..m {
        let p = asked(table, n, j);
        let end = at + stretch_bytes(s, z, n, h, p);
        good &= stretch_unused(s, z, n, h, p, &proof[at..end]);
        at = end;
    }
    good
}
