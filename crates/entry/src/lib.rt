// The entry of a proof at the shared checker.
#![tactic(auto)]

ghost use Rattle.std.specs.Prelude.{◌≡◌, true, ◌<◌, length, set, replicate};
ghost use Rattle.shared.specs.Service.{all_inside, entry_at, unless_refused, job_at};
ghost use Rattle.shared.specs.StateSteps.{state_of, refusal_of, state_left};
ghost use Rattle.shared.specs.Operations.{enter_refusal, entered, work_after_entry};
ghost use Rattle.shared.specs.Steps.{seated};

use bits::clear;
use refusal::Refusal;
use shared::entering::{SHARED_WORK, all_inside, look};
use shared::{Job, Places, Shared, job_at};

// The flags with that of caller i set, and the jobs with that of caller i put anew. An array that is a parameter tells its length.
fn set_flag(flags: [bool; 16], i: usize) -> [bool; 16]
    requires { i < 16 }
    ensures { (result ≡ set flags i true) × (length flags ≡ 16) }
{
    let mut all = flags;
    all[i] = true;
    all
}

fn put_job(jobs: [Job; 16], i: usize, j: Job) -> [Job; 16]
    requires { i < 16 }
    ensures { (result ≡ set jobs i j) × (length jobs ≡ 16) }
{
    let mut all = jobs;
    all[i] = j;
    all
}

// The state with a proof that passes all tests.
fn seat(s: Shared, i: usize, job: Job) -> Shared
    requires { i < 16 }
    ensures { state_of result ≡ seated (state_of s) i job }
{
    let waiting = set_flag(s.waiting, i);
    let jobs = put_job(s.jobs, i, job);
    Shared {
        begin: s.begin,
        waiting,
        jobs,
    }
}

// An entry that passes the tests before the bytes: the work buffer is cleared, the bytes are tested, and the proof is put in its slot.
fn enter_at(
    s: Shared,
    i: usize,
    places: Places,
    buffer: &[u8],
    work: &mut [u8],
) -> Result<Shared, Refusal>
    requires { (i < 16) × (all_inside buffer.now places ≡ true) }
    ensures number_value { (refusal_of result ≡ entry_at buffer.now places) × (state_left s result ≡ unless_refused (entry_at buffer.now places) (λ _. state_of s) (seated (state_of s) i (job_at places))) }
    ensures work_after { work.new ≡ replicate (length work.old) 0 }
{
    clear(work);
    let mut table = [0u8; 512];
    let mut marks = [0u8; 1024];
    let _shape = look(buffer, places, &mut table, &mut marks)?;
    Ok(seat(s, i, job_at(places)))
}

// A caller enters with a proof whose inputs lie at these places of the buffer: the state with it, or a refusal. The work buffer is left all
// zero, but for a refusal up to its test.
pub fn enter(
    s: Shared,
    caller: u32,
    places: Places,
    buffer: &[u8],
    work: &mut [u8],
) -> Result<Shared, Refusal>
    ensures { (refusal_of result ≡ enter_refusal caller places buffer.now work.old (state_of s)) × ((state_left s result ≡ entered caller places buffer.now work.old (state_of s)) × (work.new ≡ work_after_entry caller places buffer.now work.old (state_of s))) }
{
    if 15 < caller {
        return Err(Refusal::CallerNumber);
    }
    let i = caller as usize;
    let flags = s.waiting;
    if flags[i] {
        return Err(Refusal::AlreadyWaiting);
    }
    if !all_inside(buffer, places) {
        return Err(Refusal::BufferLength);
    }
    if work.len() < SHARED_WORK {
        return Err(Refusal::BufferLength);
    }
    enter_at(s, i, places, buffer, work)
}
