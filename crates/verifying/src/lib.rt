// Verification: each instance from its stretch of the proof, and the h* over all of them.
#![tactic(auto)]

ghost use Rattle.std.specs.Prelude.{◌≡◌, true, ◌≤◌, length};
ghost use Rattle.circuit.specs.File.{circuit_of};
ghost use Rattle.cover.specs.Masters.{cover_bytes, masters_context};
ghost use Rattle.instance.specs.Stretch.{stretch_bytes};
ghost use Rattle.instance.specs.Opened.{stretch_commitments, stretch_online, stretch_unused, stretch_output};
ghost use Rattle.instance.specs.Steps.{Lent};
ghost use Rattle.proof.specs.File.{header_bytes, header_salt, hides};
ghost use Rattle.proof.specs.Steps.{ask_of, asks_in};
ghost use Rattle.proof_tests.specs.Steps.{all_unused, all_outputs, recomputed, Sized, Rebuilt};

use bits::copy;
use circuit::Sizes;
use cover::masters_tree;
use hashing::{Context, finish, salt_in, start_all_commitments, start_all_online, transcript};
use instance::checking::{reopen, replay};
use instance::{Instance, Replayed};
use keccak::SHA3_256_RATE;
use proof::asking::{asked, stretch_bytes};
use proof::nodes::master;
use proof::{Counts, HEADER_BYTES};

// Whether all replays gave y, and the recomputed h*.
#[derive(Clone, Copy)]
pub struct Verdict {
    pub agrees: bool,
    pub hstar: [u8; 32],
}

// The salt in a header.
pub fn header_salt(proof: &[u8]) -> [u8; 32]
    requires { header_bytes ≤ length proof.now }
    ensures { result ≡ header_salt proof.now }
{
    salt_in(&proof[38..HEADER_BYTES])
}

// The tree over the masters of a proof, as its hashes name it.
pub fn proof_tree(proof: &[u8]) -> Context
    requires { header_bytes ≤ length proof.now }
    ensures { result ≡ masters_context (header_salt proof.now) }
{
    masters_tree(salt_in(&proof[38..HEADER_BYTES]))
}

// Checks instance j from its stretch, from its master if it is not chosen: its digests, and whether its replay gives y.
pub fn check_instance(
    s: &[u8],
    z: Sizes,
    inst: Instance,
    p: u32,
    y: &[u8],
    master: &[u8],
    part: &[u8],
    memory: &mut [u8],
) -> Replayed
    requires { Lent s.now z inst.parties inst.height memory.old × ((p ≤ inst.parties) × ((length master.now ≡ 16) × ((length part.now ≡ stretch_bytes (circuit_of s.now) inst.parties (ask_of inst.parties p)) × (stretch_unused (circuit_of s.now) inst.parties part.now (ask_of inst.parties p) ≡ true)))) }
    ensures { (result.agrees ≡ stretch_output (circuit_of s.now) inst.parties inst.context y.now part.now (ask_of inst.parties p)) × ((result.commitments ≡ stretch_commitments (circuit_of s.now) inst.parties inst.context master.now part.now (ask_of inst.parties p)) × (result.online ≡ stretch_online (circuit_of s.now) inst.parties inst.context part.now (ask_of inst.parties p))) }
{
    let n = inst.parties;
    if p == n {
        let commitments = reopen(s, z, inst, master, memory);
        let mut online = [0u8; 32];
        copy(part, &mut online);
        return Replayed {
            agrees: true,
            commitments,
            online,
        };
    }
    replay(s, z, inst, p, y, part, memory)
}

// Checks every instance from its stretch, and recomputes h* from their digests.
pub fn recompute(
    s: &[u8],
    z: Sizes,
    k: Counts,
    table: &[u8],
    opened: usize,
    nodes: &[u8],
    y: &[u8],
    proof: &[u8],
    memory: &mut [u8],
) -> Verdict
    requires { Lent s.now z k.parties k.height memory.old × (Sized s.now k.instances k.parties table.now proof.now × ((all_unused (circuit_of s.now) k.instances k.parties (asks_in k.parties table.now) proof.now ≡ true) × ((opened ≡ cover_bytes k.instances (hides (asks_in k.parties table.now))) × Rebuilt k.instances k.parties table.now proof.now nodes.now))) }
    ensures { (result.agrees ≡ all_outputs (circuit_of s.now) k.instances k.parties (asks_in k.parties table.now) y.now proof.now) × (result.hstar ≡ recomputed (circuit_of s.now) k.instances k.parties (asks_in k.parties table.now) proof.now) }
{
    let m = k.instances;
    let n = k.parties;
    let h = k.height;
    let salt = header_salt(proof);
    let mut agrees = true;
    let mut all = start_all_commitments();
    let mut online = start_all_online();
    let mut at = HEADER_BYTES + opened;
    for j in 0..m {
        let p = asked(table, n, j);
        let end = at + stretch_bytes(s, z, n, h, p);
        let inst = Instance {
            context: Context { salt, number: j },
            parties: n,
            height: h,
        };
        let seed = master(nodes, j);
        let r = check_instance(s, z, inst, p, y, seed, &proof[at..end], memory);
        agrees &= r.agrees;
        all = all.absorb(SHA3_256_RATE, &r.commitments);
        online = online.absorb(SHA3_256_RATE, &r.online);
        at = end;
    }
    let hstar = transcript(&finish(all), &finish(online));
    Verdict { agrees, hstar }
}
