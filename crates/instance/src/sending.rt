// What a prover makes of an instance: its digests, and its stretch of the proof.
ghost use Rattle.std.specs.Prelude.{◌≡◌, true, ◌++◌, ◌+◌, ◌≤◌, ◌<◌, length, take, drop};
ghost use Rattle.bits.specs.Bits.{oct, pack};
ghost use Rattle.circuit.specs.File.{max_gates, circuit_of};
ghost use Rattle.plain.specs.Tapes.{unused_rows};
ghost use Rattle.plain.specs.Showing.{masked_inputs, correction_bits};
ghost use Rattle.correcting.specs.Steps.{ran_memory};
ghost use Rattle.mpc.specs.Steps.{WitnessFits};
ghost use Rattle.planes.specs.Steps.{Room, held_end};
ghost use Rattle.walk.specs.Steps.{layout_of};
ghost use Rattle.packed.specs.Steps.{broadcast_bytes, tapes_held, corrections_held};
ghost use Rattle.tree.specs.Tree.{siblings_below};
ghost use Rattle.party.specs.Derive.{commitment_to};
ghost use Rattle.instance.specs.Instance.{master_commitments, master_online, hiding, sent_corrections, stretch_of};
ghost use Rattle.instance.specs.Stretch.{stretch_bytes};
ghost use Rattle.instance.specs.Steps.{Tree, Lent, held_bytes, row_sent};

use crate::checking::sent_bytes;
use crate::committing::{commit_first, commit_last, online};
use crate::seeding::{hold_parties, seed_of};
use crate::{Digests, Instance};
use bits::copy;
use circuit::Sizes;
use correcting::running::run_honest;
use packed::running::pack_row;
use party::commit_row;
use planes::places::{corrections_at, rows_at};
use tree::siblings_below;
use walk::layout;

// Runs an instance on the witness, with the tapes in the memory: leaves the corrections and the broadcasts there, and fills the masked
// inputs.
pub(crate) fn run_tapes(
    s: &[u8],
    z: Sizes,
    inst: Instance,
    witness: &[u8],
    masked: &mut [u8],
    memory: &mut [u8],
)
    requires { Lent s.now z inst.parties inst.height memory.old × (WitnessFits z witness.now × ((unused_rows (circuit_of s.now) inst.parties (tapes_held z inst.parties memory.old) inst.parties ≡ true) × (length masked.old ≡ oct z.inputs))) }
    ensures masked_after { masked.new ≡ masked_inputs (circuit_of s.now) inst.parties witness.now (tapes_held z inst.parties memory.old) }
    ensures memory_after { memory.new ≡ ran_memory s.now z inst.parties witness.now memory.old }
    ensures memory_after_2 { corrections_held z memory.new ≡ pack (correction_bits (circuit_of s.now) inst.parties (tapes_held z inst.parties memory.old)) }
{
    let k = inst.parties as usize;
    let o = bits::oct(z.outputs);
    let mut y = [0u8; 32];
    run_honest(s, z, k, witness, masked, &mut y[..o], memory);
}

// The digests of instance j, from its master and the witness. The seeds give way to the run: what commits to them alone comes before it,
// party n − 1's commitment after it. What then stands in the memory is not told.
pub fn digests(
    s: &[u8],
    z: Sizes,
    inst: Instance,
    witness: &[u8],
    master: &[u8],
    memory: &mut [u8],
) -> Digests
    requires { Lent s.now z inst.parties inst.height memory.old × (WitnessFits z witness.now × (length master.now ≡ 16)) }
    ensures { (result.commitments ≡ master_commitments (circuit_of s.now) inst.parties inst.context master.now) × (result.online ≡ master_online (circuit_of s.now) inst.parties inst.context witness.now master.now) }
{
    let j = inst.context.number;
    let n = inst.parties;
    let m = bits::oct(z.inputs);
    let mut masked = [0u8; 64];
    hold_parties(s, z, inst, master, memory);
    let first = commit_first(z, inst, memory);
    let last = seed_of(z, n, n - 1, memory);
    run_tapes(s, z, inst, witness, &mut masked[..m], memory);
    let commitments = commit_last(z, inst, first, &last, memory);
    let online = online(j, &masked[..m], z, n as usize, memory);
    Digests {
        commitments,
        online,
    }
}

// Writes from into part at `at`, and gives the place after it.
pub(crate) fn put(from: &[u8], at: usize, part: &mut [u8]) -> usize
    requires { at + length «from».now ≤ length part.old }
    ensures value { result ≡ at + length «from».now }
    ensures part_after { part.new ≡ take at part.old ++ «from».now ++ drop (at + length «from».now) part.old }
{
    let to = at + from.len();
    copy(from, &mut part[at..to]);
    to
}

// Writes the parts of a stretch that need no run, from party p's seed and r, which are `own`, and the corrections in the memory:
// siblings, corrections unless p = n − 1, com_p. Gives the place after them.
pub(crate) fn send_held(
    z: Sizes,
    inst: Instance,
    p: u32,
    master: &[u8],
    own: &[u8],
    memory: &[u8],
    part: &mut [u8],
) -> usize
    requires { Room (layout_of z) memory.now × ((held_end (layout_of z) inst.parties ≤ length memory.now) × ((z.ands ≤ max_gates) × (Tree inst.parties inst.height × ((p < inst.parties) × ((length master.now ≡ 16) × ((length own.now ≡ 32) × (held_bytes z inst.parties inst.height p ≤ length part.old))))))) }
    ensures value { result ≡ held_bytes z inst.parties inst.height p }
    ensures part_after { part.new ≡ siblings_below inst.context inst.height 1 p master.now ++ sent_corrections inst.parties p (corrections_held z memory.now) ++ commitment_to inst.context inst.parties p own.now (corrections_held z memory.now) ++ drop (held_bytes z inst.parties inst.height p) part.old }
{
    let j = inst.context;
    let n = inst.parties;
    let h = inst.height;
    let l = layout(z);
    let at = corrections_at(l);
    let rows = rows_at(l);
    let end = at + sent_bytes(z.ands, n, p);
    let com = commit_row(j, n, p, own, &memory[at..rows]);
    let first = 16 * (h as usize);
    siblings_below(j, 1, h, p, master, &mut part[..first]);
    let second = put(&memory[at..end], first, part);
    put(&com, second, part)
}

// Writes a stretch from the memory after the run: siblings, corrections unless p = n − 1, com_p, masked inputs, broadcast row p.
pub(crate) fn send_ran(
    z: Sizes,
    inst: Instance,
    p: u32,
    master: &[u8],
    own: &[u8],
    masked: &[u8],
    memory: &[u8],
    part: &mut [u8],
)
    requires { Room (layout_of z) memory.now × ((held_end (layout_of z) inst.parties ≤ length memory.now) × ((z.ands ≤ max_gates) × (Tree inst.parties inst.height × ((p < inst.parties) × ((length master.now ≡ 16) × ((length own.now ≡ 32) × ((length masked.now ≡ oct z.inputs) × (length part.old ≡ held_bytes z inst.parties inst.height p + oct z.inputs + broadcast_bytes z)))))))) }
    ensures { part.new ≡ siblings_below inst.context inst.height 1 p master.now ++ sent_corrections inst.parties p (corrections_held z memory.now) ++ commitment_to inst.context inst.parties p own.now (corrections_held z memory.now) ++ masked.now ++ row_sent z p memory.now }
{
    let l = layout(z);
    let third = send_held(z, inst, p, master, own, memory, part);
    let fourth = put(masked, third, part);
    pack_row(
        memory,
        l,
        p as usize,
        z.ands + z.outputs,
        &mut part[fourth..],
    );
}

// The stretch of a chosen instance, from its master and the witness. What then stands in the memory is not told.
pub fn send(
    s: &[u8],
    z: Sizes,
    inst: Instance,
    p: u32,
    witness: &[u8],
    master: &[u8],
    part: &mut [u8],
    memory: &mut [u8],
)
    requires { Lent s.now z inst.parties inst.height memory.old × (WitnessFits z witness.now × ((length master.now ≡ 16) × ((p < inst.parties) × (length part.old ≡ stretch_bytes (circuit_of s.now) inst.parties (hiding p))))) }
    ensures { part.new ≡ stretch_of (circuit_of s.now) inst.parties inst.context witness.now master.now (hiding p) }
{
    let n = inst.parties;
    let m = bits::oct(z.inputs);
    let mut masked = [0u8; 64];
    hold_parties(s, z, inst, master, memory);
    let own = seed_of(z, n, p, memory);
    run_tapes(s, z, inst, witness, &mut masked[..m], memory);
    send_ran(z, inst, p, master, &own, &masked[..m], memory, part);
}
