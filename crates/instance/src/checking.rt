// What a checker makes of an instance's stretch of the proof: its digests and its tests.
ghost use Rattle.std.specs.Prelude.{◌≡◌, true, cond, suc, ◌≤◌, ◌<◌, eqb, length};
ghost use Rattle.bits.specs.Bits.{oct};
ghost use Rattle.circuit.specs.File.{max_gates, circuit_of};
ghost use Rattle.mpc.specs.Steps.{Known};
ghost use Rattle.packed.specs.Steps.{tapes_held, corrections_held};
ghost use Rattle.instance.specs.Instance.{commitments_digest, master_commitments, hiding};
ghost use Rattle.instance.specs.Stretch.{stretch_bytes};
ghost use Rattle.instance.specs.Opened.{opened_seeds, opened_commitments, opened_showing, stretch_online, stretch_unused, stretch_output};
ghost use Rattle.instance.specs.Steps.{Tree, Lent, seeds_held};

use crate::committing::{commit, commit_first, commit_last, online};
use crate::seeding::{hold_opened, hold_parties, seed_of};
use crate::{Instance, Replayed};
use bits::{clear, copy};
use circuit::Sizes;
use masks::chain::make_corrections;
use packed::running::replay_held;
use planes::places::{corrections_at, rows_at, seeds_at, seeds_end};
use walk::layout;

// h_j of an instance that is not chosen, from its master. What then stands in the memory is not told.
pub fn reopen(s: &[u8], z: Sizes, inst: Instance, master: &[u8], memory: &mut [u8]) -> [u8; 32]
    requires { Lent s.now z inst.parties inst.height memory.old × (length master.now ≡ 16) }
    ensures { result ≡ master_commitments (circuit_of s.now) inst.parties inst.context master.now }
{
    let n = inst.parties;
    let l = layout(z);
    let at = corrections_at(l);
    let rows = rows_at(l);
    hold_parties(s, z, inst, master, memory);
    let first = commit_first(z, inst, memory);
    let last = seed_of(z, n, n - 1, memory);
    make_corrections(s, z, n as usize, rows, at, memory);
    commit_last(z, inst, first, &last, memory)
}

// The bytes of corrections in the stretch of a chosen instance that hides party p.
pub fn sent_bytes(ands: usize, n: u32, p: u32) -> usize
    requires { (ands ≤ max_gates) × (p < n) }
    ensures { result ≡ cond (eqb (suc p) n) 0 (oct ands) }
{
    if p + 1 == n { 0 } else { bits::oct(ands) }
}

// Whether the unused bits of a chosen instance's stretch are zero.
pub fn unused(s: &[u8], z: Sizes, n: u32, h: u32, p: u32, part: &[u8]) -> bool
    requires { Known s.now z × (Tree n h × ((p < n) × (length part.now ≡ stretch_bytes (circuit_of s.now) n (hiding p)))) }
    ensures { result ≡ stretch_unused (circuit_of s.now) n part.now (hiding p) }
{
    let first = 16 * (h as usize);
    let second = first + sent_bytes(z.ands, n, p);
    let third = second + 32;
    let fourth = third + bits::oct(z.inputs);
    let c = bits::unused_zero(&part[first..second], z.ands);
    let m = bits::unused_zero(&part[third..fourth], z.inputs);
    let r = bits::unused_zero(&part[fourth..], z.ands + z.outputs);
    c & m & r
}

// Brings the seeds and the tapes of the opened parties into the memory, and the corrections that are sent: zeros where they are the
// hidden party's.
pub(crate) fn reopen_parties(
    s: &[u8],
    z: Sizes,
    inst: Instance,
    p: u32,
    part: &[u8],
    memory: &mut [u8],
)
    requires { Lent s.now z inst.parties inst.height memory.old × ((p < inst.parties) × (length part.now ≡ stretch_bytes (circuit_of s.now) inst.parties (hiding p))) }
    ensures memory_after { seeds_held z inst.parties memory.new ≡ opened_seeds inst.parties inst.context p part.now }
    ensures memory_after_2 { tapes_held z inst.parties memory.new ≡ (opened_showing (circuit_of s.now) inst.parties inst.context p part.now).tapes }
    ensures memory_after_3 { corrections_held z memory.new ≡ (opened_showing (circuit_of s.now) inst.parties inst.context p part.now).corrections }
{
    let n = inst.parties;
    let first = 16 * (inst.height as usize);
    let l = layout(z);
    let at = corrections_at(l);
    let rows = rows_at(l);
    hold_opened(s, z, inst, p, &part[..first], memory);
    if p + 1 == n {
        clear(&mut memory[at..rows]);
    } else {
        let second = first + bits::oct(z.ands);
        copy(&part[first..second], &mut memory[at..rows]);
    }
}

// Replays a chosen instance from its stretch. What then stands in the memory is not told.
pub fn replay(
    s: &[u8],
    z: Sizes,
    inst: Instance,
    p: u32,
    y: &[u8],
    part: &[u8],
    memory: &mut [u8],
) -> Replayed
    requires { Lent s.now z inst.parties inst.height memory.old × ((p < inst.parties) × ((length part.now ≡ stretch_bytes (circuit_of s.now) inst.parties (hiding p)) × (stretch_unused (circuit_of s.now) inst.parties part.now (hiding p) ≡ true))) }
    ensures { (result.agrees ≡ stretch_output (circuit_of s.now) inst.parties inst.context y.now part.now (hiding p)) × ((result.commitments ≡ commitments_digest inst.context.number (opened_commitments (circuit_of s.now) inst.parties inst.context p part.now)) × (result.online ≡ stretch_online (circuit_of s.now) inst.parties inst.context part.now (hiding p))) }
{
    let j = inst.context.number;
    let n = inst.parties;
    let k = n as usize;
    let l = layout(z);
    let at = corrections_at(l);
    let seeds = seeds_at(l);
    let last = seeds_end(l, k);
    let sent = sent_bytes(z.ands, n, p);
    let second = 16 * (inst.height as usize) + sent;
    let third = second + 32;
    let fourth = third + bits::oct(z.inputs);
    let o = bits::oct(z.outputs);
    let mut out = [0u8; 32];
    reopen_parties(s, z, inst, p, part, memory);
    let end = at + sent;
    let commitments = commit(
        inst,
        p,
        &part[second..third],
        &memory[seeds..last],
        &memory[at..end],
    );
    replay_held(
        s,
        z,
        k,
        p as usize,
        &part[third..fourth],
        &part[fourth..],
        &mut out[..o],
        memory,
    );
    let online = online(j, &part[third..fourth], z, k, memory);
    let agrees = bits::same(&out[..o], y);
    Replayed {
        agrees,
        commitments,
        online,
    }
}
