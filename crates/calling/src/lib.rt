// A call to the shared checker: instances of the waiting proofs, in cyclic order.
#![tactic(auto)]

ghost use Rattle.std.specs.Prelude.{◌≡◌, ◌≤◌, length, Ok, Some};
ghost use Rattle.schedule.specs.Schedule.{serve};
ghost use Rattle.shared.specs.Service.{service_at};
ghost use Rattle.shared.specs.StateSteps.{state_of, refusal_of};
ghost use Rattle.shared.specs.Operations.{call_refusal, called, verdicts_of, work_after_call};
ghost use Rattle.shared.specs.Steps.{outcome_of};
ghost use Rattle.calling.specs.Steps.{Keeps, Replies, state_told, count_told, verdicts_told, waits_on, job_after, told_after};

use bits::clear;
use proof_tests::Shape;
use refusal::Refusal;
use schedule::next_caller;
use serving::serve_ready;
use shared::entering::{SHARED_WORK, all_inside, look};
use shared::{Job, Places, Served, Shared};

// What a call that is not refused answers: the state that it leaves, how many instances were checked, and each caller's verdict, 0 for
// accepted and 255 for none in this call.
#[derive(Clone, Copy)]
pub struct Called {
    pub state: Shared,
    pub count: u32,
    pub verdicts: [u8; 16],
}

// What a call keeps of the tests of a caller's bytes: the shape of a proof that passes, with the table of its challenge and the marks of its
// masters' tree.
#[derive(Clone, Copy)]
pub struct Kept {
    pub shape: Shape,
    pub table: [u8; 512],
    pub marks: [u8; 1024],
}

// Tests the bytes at these places.
fn test_bytes(buffer: &[u8], p: Places) -> Result<Kept, Refusal>
    ensures { Keeps result buffer.now p }
{
    if !all_inside(buffer, p) {
        return Err(Refusal::BufferLength);
    }
    let mut table = [0u8; 512];
    let mut marks = [0u8; 1024];
    let shape = look(buffer, p, &mut table, &mut marks)?;
    Ok(Kept {
        shape,
        table,
        marks,
    })
}

// The tests of a caller's bytes, once in a call: a proof that has passed them is not tested again.
fn test_once(kept: Option<Kept>, buffer: &[u8], p: Places) -> Result<Kept, Refusal>
    requires { (k : Kept) → kept ≡ Some k → Keeps (Ok k) buffer.now p }
    ensures { Keeps result buffer.now p }
{
    match kept {
        Some(k) => Ok(k),
        None => test_bytes(buffer, p),
    }
}

// One service of a waiting proof, of whose bytes the tests answer this.
fn serve_tested(job: Job, tested: Result<Kept, Refusal>, buffer: &[u8], work: &mut [u8]) -> Served
    requires { Keeps tested buffer.now job.places × (6436864 ≤ length work.old) }
    ensures { outcome_of result ≡ service_at buffer.now job }
{
    match tested {
        Err(k) => Served::Finished(Err(k)),
        Ok(k) => {
            let table = k.table;
            let marks = k.marks;
            serve_ready(job, k.shape, buffer, &table, &marks, work)
        }
    }
}

// Whether a caller waits on after a service.
fn waits_on(r: Served) -> bool
    ensures { result ≡ waits_on r }
{
    match r {
        Served::GoesOn(_) => true,
        Served::Finished(_) => false,
    }
}

// The proof in a caller's slot after a service.
fn job_after(old: Job, r: Served) -> Job
    ensures { result ≡ job_after old r }
{
    match r {
        Served::GoesOn(job) => job,
        Served::Finished(_) => old,
    }
}

// What is told of a caller after a service: its verdict, if it is finished.
fn told_after(old: u8, r: Served) -> u8
    ensures { result ≡ told_after old r }
{
    match r {
        Served::GoesOn(_) => old,
        Served::Finished(Ok(())) => 0,
        Served::Finished(Err(k)) => u32::from(k) as u8,
    }
}

// The answer of a call that is not refused.
fn answer(begin: u8, waiting: [bool; 16], jobs: [Job; 16], count: u32, verdicts: [u8; 16]) -> Called
    ensures { result ≡ record { state = record { begin = begin; waiting = waiting; jobs = jobs }; count = count; verdicts = verdicts } }
{
    Called {
        state: Shared {
            begin,
            waiting,
            jobs,
        },
        count,
        verdicts,
    }
}

// Services in cyclic order until the quota is used or nobody waits. A function of its own in the archive too, so that what it needs of the
// stack is given back before the state is written.
#[inline(never)]
fn serve_all(s: Shared, quota: u32, buffer: &[u8], work: &mut [u8]) -> Called
    requires { 6436864 ≤ length work.old }
    ensures { Replies result (serve 16 (λ _. service_at buffer.now) quota (state_of s)) }
{
    let mut begin = s.begin;
    let mut waiting = s.waiting;
    let mut jobs = s.jobs;
    let mut kept: [Option<Kept>; 16] = [None; 16];
    let mut verdicts = [255u8; 16];
    for turn in 0..quota {
        let c = next_caller(begin, waiting);
        if 15 < c {
            return answer(begin, waiting, jobs, turn, verdicts);
        }
        let i = c as usize;
        let job = jobs[i];
        let tested = test_once(kept[i], buffer, job.places);
        let r = serve_tested(job, tested, buffer, work);
        kept[i] = tested.ok();
        jobs[i] = job_after(job, r);
        waiting[i] = waits_on(r);
        verdicts[i] = told_after(verdicts[i], r);
        begin = c + 1;
    }
    answer(begin, waiting, jobs, quota, verdicts)
}

// Checks a quota of instances of the waiting proofs, whose inputs lie in the buffer. The work buffer is left all zero, but for a refusal.
pub fn call(s: Shared, quota: u32, buffer: &[u8], work: &mut [u8]) -> Result<Called, Refusal>
    ensures { (refusal_of result ≡ call_refusal quota work.old (state_of s)) × ((state_told s result ≡ (called quota buffer.now work.old (state_of s)).1) × ((count_told result ≡ length (called quota buffer.now work.old (state_of s)).0) × ((verdicts_told result ≡ verdicts_of (called quota buffer.now work.old (state_of s)).0) × (work.new ≡ work_after_call quota work.old (state_of s))))) }
{
    let named = 1 <= quota && quota <= 512;
    let served = next_caller(s.begin, s.waiting) <= 15;
    if !named {
        return Err(Refusal::Parameter);
    }
    if !served {
        return Err(Refusal::NoneWaiting);
    }
    if work.len() < SHARED_WORK {
        return Err(Refusal::BufferLength);
    }
    let r = serve_all(s, quota, buffer, work);
    clear(work);
    Ok(r)
}
