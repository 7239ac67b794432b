// The state that bytes are.
ghost use Rattle.std.specs.Prelude.{◌≡◌, ◌+◌, ◌*◌, ◌≤◌, ◌<◌, length, get_or};
ghost use Rattle.bits.specs.Bits.{tabulate};
ghost use Rattle.bits.specs.Bytes.{le_at};
ghost use Rattle.shared.specs.StateSteps.{state_of};
ghost use Rattle.state_bytes.specs.Bytes.{place_at, places_at, sponge_at, job_in, decode_state};
ghost use Rattle.state_bytes.specs.Steps.{flag_in, job_of};

use crate::SLOT_BYTES;
use bits::{read_u32, read_u64};
use keccak::sponge::Sponge;
use shared::{Job, Place, Places, Shared};
use stepping::Running;

// The place at byte `at`: its start and its length.
fn read_place(s: &[u8], at: usize) -> Place
    requires { at + 16 ≤ length s.now }
    ensures { result ≡ place_at s.now at }
{
    Place {
        start: read_u64(s, at) as usize,
        len: read_u64(s, at + 8) as usize,
    }
}

// The places of circuit, y, message and proof.
fn read_places(s: &[u8], at: usize) -> Places
    requires { at + 64 ≤ length s.now }
    ensures { result ≡ places_at s.now at }
{
    Places {
        circuit: read_place(s, at),
        y: read_place(s, at + 16),
        message: read_place(s, at + 32),
        proof: read_place(s, at + 48),
    }
}

// 25 lanes.
fn read_lanes(s: &[u8], at: usize) -> [u64; 25]
    requires { at + 200 ≤ length s.now }
    ensures { result ≡ tabulate 25 (λ i. le_at 8 s.now (at + 8 * i)) }
{
    let mut lanes = [0u64; 25];
    for i in 0..25 {
        lanes[i] = read_u64(s, at + 8 * i);
    }
    lanes
}

// A sponge: 25 lanes, and the fill.
fn read_sponge(s: &[u8], at: usize) -> Sponge
    requires { at + 201 ≤ length s.now }
    ensures { result ≡ sponge_at s.now at }
{
    let lanes = read_lanes(s, at);
    let fill = (s[at + 200] as usize) % 136;
    Sponge { lanes, fill }
}

// A proof: its places, the number of its next instance, and its two digests.
fn read_job(s: &[u8], at: usize) -> Job
    requires { at + 470 ≤ length s.now }
    ensures { result ≡ job_in s.now at }
{
    let commitments = read_sponge(s, at + 68);
    let online = read_sponge(s, at + 269);
    Job {
        places: read_places(s, at),
        next: read_u32(s, at + 64),
        digests: Running {
            commitments,
            online,
        },
    }
}

// Who waits.
fn read_flags(s: &[u8]) -> [bool; 16]
    requires { length s.now ≡ 7537 }
    ensures { result ≡ tabulate 16 (flag_in s.now) }
{
    let mut flags = [false; 16];
    for i in 0..16 {
        flags[i] = s[1 + SLOT_BYTES * i] != 0;
    }
    flags
}

// The proofs of all slots.
fn read_jobs(s: &[u8]) -> [Job; 16]
    requires { length s.now ≡ 7537 }
    ensures { result ≡ tabulate 16 (job_of s.now) }
{
    let mut jobs = [read_job(s, 2); 16];
    for i in 0..16 {
        jobs[i] = read_job(s, 2 + SLOT_BYTES * i);
    }
    jobs
}

// The state of bytes.
pub fn decode(s: &[u8; 7537]) -> Shared
    ensures { state_of result ≡ decode_state s.now }
{
    let begin = s[0];
    let waiting = read_flags(s);
    let jobs = read_jobs(s);
    Shared {
        begin,
        waiting,
        jobs,
    }
}
