// One instance of a proof at a time, and the digests over the instances so far.
#![tactic(auto)]

ghost use Rattle.std.specs.Prelude.{◌≡◌, ◌+◌, ◌*◌, ◌≤◌, ◌<◌, length};
ghost use Rattle.bits.specs.Bytes.{same_bytes};
ghost use Rattle.circuit.specs.File.{circuit_of};
ghost use Rattle.masks.specs.Steps.{wire_count};
ghost use Rattle.proof.specs.File.{header_bytes, header_hstar, stretch_start};
ghost use Rattle.proof.specs.Steps.{asks_in};
ghost use Rattle.stepping.specs.RunningDigests.{started, more, hstar_in};
ghost use Rattle.proof_tests.specs.Steps.{Tested, output_at, commitments_at, online_at};

mod masters;

use cover::masters_tree;
use hashing::{Context, finish, start_all_commitments, start_all_online, transcript};
use instance::{Instance, Replayed};
use keccak::SHA3_256_RATE;
use keccak::sponge::Sponge;
use masters::master_of;
use proof::HEADER_BYTES;
use proof::asking::{asked, stretch_bytes};
use proof_tests::Shape;
use verifying::{check_instance, header_salt};

// The sponges of h and h', which have taken in the digests of the instances so far.
#[derive(Clone, Copy)]
pub struct Running {
    pub commitments: Sponge,
    pub online: Sponge,
}

// Where the stretch of instance j starts.
fn stretch_start(s: &[u8], f: Shape, table: &[u8], proof: &[u8], marks: &[u8], j: u32) -> usize
    requires { Tested s.now f proof.now table.now marks.now × (j ≤ f.counts.instances) }
    ensures { result ≡ stretch_start (circuit_of s.now) f.counts.instances f.counts.parties (asks_in f.counts.parties table.now) j }
{
    let z = f.sizes;
    let k = f.counts;
    let mut at = HEADER_BYTES + f.opened;
    for i in 0..j {
        let p = asked(table, k.parties, i);
        at += stretch_bytes(s, z, k.parties, k.height, p);
    }
    at
}

// Checks instance j of a proof that passes all tests that need no run: its digests, and whether its replay gives y.
pub fn check_one(
    s: &[u8],
    f: Shape,
    table: &[u8],
    marks: &[u8],
    y: &[u8],
    proof: &[u8],
    j: u32,
    memory: &mut [u8],
) -> Replayed
    requires { Tested s.now f proof.now table.now marks.now × ((64 * wire_count f.sizes + 4096 ≤ length memory.old) × (j < f.counts.instances)) }
    ensures { (result.agrees ≡ output_at (circuit_of s.now) f.counts.instances f.counts.parties (asks_in f.counts.parties table.now) proof.now y.now j) × ((result.commitments ≡ commitments_at (circuit_of s.now) f.counts.instances f.counts.parties (asks_in f.counts.parties table.now) proof.now j) × (result.online ≡ online_at (circuit_of s.now) f.counts.instances f.counts.parties (asks_in f.counts.parties table.now) proof.now j)) }
{
    let z = f.sizes;
    let k = f.counts;
    let n = k.parties;
    let h = k.height;
    let p = asked(table, n, j);
    let first = HEADER_BYTES + f.opened;
    let salt = header_salt(proof);
    let seed = master_of(
        k.instances,
        marks,
        &proof[HEADER_BYTES..first],
        j,
        p != n,
        masters_tree(salt),
    );
    let at = stretch_start(s, f, table, proof, marks, j);
    let end = at + stretch_bytes(s, z, n, h, p);
    let inst = Instance {
        context: Context { salt, number: j },
        parties: n,
        height: h,
    };
    check_instance(s, z, inst, p, y, &seed, &proof[at..end], memory)
}

// The sponges before the first instance.
pub fn start_digests() -> Running
    ensures { result ≡ started }
{
    Running {
        commitments: start_all_commitments(),
        online: start_all_online(),
    }
}

// The sponges with the digests of one instance more.
pub fn take_digests(d: Running, r: Replayed) -> Running
    requires { (d.commitments.fill < 136) × (d.online.fill < 136) }
    ensures { result ≡ more d r.commitments r.online }
{
    let all = d.commitments;
    let online = d.online;
    Running {
        commitments: all.absorb(SHA3_256_RATE, &r.commitments),
        online: online.absorb(SHA3_256_RATE, &r.online),
    }
}

// Whether the h* that the sponges give is the header's.
pub fn same_hstar(d: Running, proof: &[u8]) -> bool
    requires { ((d.commitments.fill < 136) × (d.online.fill < 136)) × (header_bytes ≤ length proof.now) }
    ensures { result ≡ same_bytes (hstar_in d) (header_hstar proof.now) }
{
    let hstar = transcript(&finish(d.commitments), &finish(d.online));
    bits::same(&hstar, &proof[6..38])
}
