// The rounds of the prover: its first message, and its response to the challenge.
#![tactic(auto)]

ghost use Rattle.std.specs.Prelude.{◌≡◌, ◌++◌, suc, ◌-◌, ◌*◌, ◌^◌, ◌≤◌, length, take, drop};
ghost use Rattle.circuit.specs.File.{circuit_of};
ghost use Rattle.mpc.specs.Steps.{WitnessFits};
ghost use Rattle.cover.specs.Masters.{height};
ghost use Rattle.choice.specs.Challenge.{max_instances};
ghost use Rattle.instance.specs.Instance.{master_online, stretch_of};
ghost use Rattle.instance.specs.Stretch.{stretch_bytes};
ghost use Rattle.instance.specs.Steps.{Lent};
ghost use Rattle.proof.specs.Protocol.{first_message, response_of};
ghost use Rattle.proof.specs.File.{header_bytes, proof_bytes};
ghost use Rattle.proof.specs.Steps.{ask_of, asks_in, master_in};
ghost use Rattle.rounds.specs.Steps.{onlines_of, opened_rows, Response, Answering};

use bits::copy;
use circuit::Sizes;
use growing::gather;
use hashing::{Context, finish, start_all_commitments, start_all_online, transcript};
use instance::Instance;
use instance::sending::{digests, send};
use keccak::SHA3_256_RATE;
use proof::asking::{asked, proof_bytes, stretch_bytes};
use proof::nodes::{mark_nodes, master};
use proof::{Counts, HEADER_BYTES};

// Round 1: h*, from the digests of all instances, with the salt and with their masters among the nodes; `onlines` takes the h'_j, one after the other.
pub fn first(
    s: &[u8],
    z: Sizes,
    k: Counts,
    salt: [u8; 32],
    witness: &[u8],
    nodes: &[u8],
    onlines: &mut [u8],
    memory: &mut [u8],
) -> [u8; 32]
    requires { Lent s.now z k.parties k.height memory.old × (WitnessFits z witness.now × ((k.instances ≤ max_instances) × ((length nodes.now ≡ 16 * 2 ^ suc (height k.instances)) × (length onlines.old ≡ 32 * k.instances)))) }
    ensures value { result ≡ first_message (circuit_of s.now) k.instances k.parties salt witness.now (master_in nodes.now) }
    ensures onlines_after { onlines.new ≡ onlines_of (circuit_of s.now) k.instances k.parties salt witness.now (master_in nodes.now) }
{
    let m = k.instances;
    let n = k.parties;
    let h = k.height;
    let mut all = start_all_commitments();
    for i in 0..m {
        let inst = Instance {
            context: Context { salt, number: i },
            parties: n,
            height: h,
        };
        let d = digests(s, z, inst, witness, master(nodes, i), memory);
        all = all.absorb(SHA3_256_RATE, &d.commitments);
        let a = 32 * (i as usize);
        let e = a + 32;
        copy(&d.online, &mut onlines[a..e]);
    }
    let online = finish(start_all_online().absorb(SHA3_256_RATE, onlines));
    transcript(&finish(all), &online)
}

// The stretch of an instance with this master, of which p is asked; `online` is its h'_j.
fn stretch(
    s: &[u8],
    z: Sizes,
    inst: Instance,
    p: u32,
    witness: &[u8],
    seed: &[u8],
    online: &[u8],
    part: &mut [u8],
    memory: &mut [u8],
)
    requires { Lent s.now z inst.parties inst.height memory.old × (WitnessFits z witness.now × ((p ≤ inst.parties) × ((length seed.now ≡ 16) × ((online.now ≡ master_online (circuit_of s.now) inst.parties inst.context witness.now seed.now) × (length part.old ≡ stretch_bytes (circuit_of s.now) inst.parties (ask_of inst.parties p)))))) }
    ensures { part.new ≡ stretch_of (circuit_of s.now) inst.parties inst.context witness.now seed.now (ask_of inst.parties p) }
{
    let n = inst.parties;
    if p == n {
        copy(online, part);
    } else {
        send(s, z, inst, p, witness, seed, part, memory);
    }
}

// The stretches of round 3, after the first `opened` bytes, from the last to the first, so that each h'_j stands until it is read.
fn respond(
    s: &[u8],
    z: Sizes,
    k: Counts,
    salt: [u8; 32],
    table: &[u8],
    opened: usize,
    witness: &[u8],
    nodes: &[u8],
    part: &mut [u8],
    memory: &mut [u8],
)
    requires { Lent s.now z k.parties k.height memory.old × (WitnessFits z witness.now × Response s.now k.instances k.parties salt witness.now nodes.now table.now opened part.old) }
    ensures { part.new ≡ take opened part.old ++ response_of (circuit_of s.now) k.instances k.parties salt witness.now (master_in nodes.now) (asks_in k.parties table.now) }
{
    let m = k.instances;
    let n = k.parties;
    let h = k.height;
    let mut end = part.len();
    for j in (0..m).rev() {
        let p = asked(table, n, j);
        let start = end - stretch_bytes(s, z, n, h, p);
        let a = 32 * (j as usize);
        let e = a + 32;
        let mut online = [0u8; 32];
        copy(&part[a..e], &mut online);
        let inst = Instance {
            context: Context { salt, number: j },
            parties: n,
            height: h,
        };
        stretch(
            s,
            z,
            inst,
            p,
            witness,
            master(nodes, j),
            &online,
            &mut part[start..end],
            memory,
        );
        end = start;
    }
}

// Round 3, into the bytes after the header, which start with the h'_j: the opened nodes and the stretches. The bytes of the proof.
pub fn answer(
    s: &[u8],
    z: Sizes,
    k: Counts,
    salt: [u8; 32],
    table: &[u8],
    witness: &[u8],
    nodes: &[u8],
    part: &mut [u8],
    memory: &mut [u8],
) -> usize
    requires { Lent s.now z k.parties k.height memory.old × (WitnessFits z witness.now × Answering s.now k.instances k.parties salt witness.now nodes.now table.now part.old) }
    ensures value { result ≡ proof_bytes (circuit_of s.now) k.instances k.parties (asks_in k.parties table.now) }
    ensures part_after { part.new ≡ opened_rows k.instances (asks_in k.parties table.now) nodes.now ++ (response_of (circuit_of s.now) k.instances k.parties salt witness.now (master_in nodes.now) (asks_in k.parties table.now) ++ drop (result - header_bytes) part.old) }
{
    let rows = nodes.len() / 16;
    let mut marks = [0u8; 1024];
    let opened = mark_nodes(k, table, &mut marks[..rows]);
    let size = proof_bytes(s, z, k, table, opened);
    let end = size - HEADER_BYTES;
    respond(
        s,
        z,
        k,
        salt,
        table,
        opened,
        witness,
        nodes,
        &mut part[..end],
        memory,
    );
    gather(&marks[..rows], nodes, &mut part[..opened]);
    size
}
