// The bytes of a state.
ghost use Rattle.std.specs.Prelude.{◌≡◌, cond, ◌+◌, ◌*◌, ◌≤◌, ◌<◌, length, get_or};
ghost use Rattle.std.proofs.lemmas.List.Edits.{sets};
ghost use Rattle.permutation.specs.Permutation.{lane_bytes};
ghost use Rattle.schedule.specs.Schedule.{idle, waiting as «waits-with»};
ghost use Rattle.shared.specs.StateSteps.{nowhere, state_of};
ghost use Rattle.state_bytes.specs.Bytes.{place_bytes, places_bytes, sponge_bytes, job_bytes, slot_bytes, encode_state};

use crate::SLOT_BYTES;
use bits::{clear, write_u32, write_u64};
use keccak::sponge::Sponge;
use schedule::asked_first;
use shared::{Job, Place, Places, Shared};

// Each function writes from byte `at` on.

fn write_place(out: &mut [u8], at: usize, p: Place)
    requires { at + 16 ≤ length out.old }
    ensures { out.new ≡ sets out.old at (place_bytes p) }
{
    write_u64(out, at, p.start as u64);
    write_u64(out, at + 8, p.len as u64);
}

fn write_places(out: &mut [u8], at: usize, p: Places)
    requires { at + 64 ≤ length out.old }
    ensures { out.new ≡ sets out.old at (places_bytes p) }
{
    write_place(out, at, p.circuit);
    write_place(out, at + 16, p.y);
    write_place(out, at + 32, p.message);
    write_place(out, at + 48, p.proof);
}

fn write_lanes(out: &mut [u8], at: usize, lanes: [u64; 25])
    requires { at + 200 ≤ length out.old }
    ensures { (out.new ≡ sets out.old at (lane_bytes lanes)) × (length lanes ≡ 25) }
{
    for i in 0..25 {
        write_u64(out, at + 8 * i, lanes[i]);
    }
}

fn write_sponge(out: &mut [u8], at: usize, s: Sponge)
    requires { at + 201 ≤ length out.old }
    ensures { (out.new ≡ sets out.old at (sponge_bytes s)) × (length (sponge_bytes s) ≡ 201) }
{
    let lanes = s.lanes;
    write_lanes(out, at, lanes);
    out[at + 200] = (s.fill % 136) as u8;
}

fn write_job(out: &mut [u8], at: usize, j: Job)
    requires { at + 470 ≤ length out.old }
    ensures { (out.new ≡ sets out.old at (job_bytes j)) × (length (job_bytes j) ≡ 470) }
{
    let d = j.digests;
    write_places(out, at, j.places);
    write_u32(out, at + 64, j.next);
    write_sponge(out, at + 68, d.commitments);
    write_sponge(out, at + 269, d.online);
}

// The slot of a caller.
fn write_slot(out: &mut [u8], at: usize, waits: bool, j: Job)
    requires { at + 471 ≤ length out.old }
    ensures { (out.new ≡ sets out.old at (slot_bytes (cond waits («waits-with» j) idle))) × (length (slot_bytes (cond waits («waits-with» j) idle)) ≡ 471) }
{
    if waits {
        out[at] = 1;
        write_job(out, at + 1, j);
    } else {
        let e = at + SLOT_BYTES;
        clear(&mut out[at..e]);
    }
}

// The proof of caller i.
fn job_of(jobs: [Job; 16], i: usize) -> Job
    requires { i < 16 }
    ensures { result ≡ get_or jobs i nowhere }
{
    jobs[i]
}

fn write_state(out: &mut [u8], s: Shared)
    requires { length out.old ≡ 7537 }
    ensures { out.new ≡ encode_state (state_of s) }
{
    let flags = s.waiting;
    let jobs = s.jobs;
    out[0] = asked_first(s.begin);
    for i in 0..16 {
        let j = job_of(jobs, i);
        write_slot(out, 1 + SLOT_BYTES * i, flags[i], j);
    }
}

// Writes the bytes of a state.
pub fn encode(s: Shared, out: &mut [u8; 7537])
    ensures { out.new ≡ encode_state (state_of s) }
{
    write_state(out, s)
}
