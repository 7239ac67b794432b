// The shared checker: up to 16 callers, each with at most one proof waiting.
#![tactic(auto)]

ghost use Rattle.std.specs.Prelude.{◌≡◌};
ghost use Rattle.schedule.specs.Schedule.{empty};
ghost use Rattle.shared.specs.Service.{job_at};
ghost use Rattle.shared.specs.StateSteps.{state_of};

pub mod entering;

use refusal::Refusal;
use stepping::{Running, start_digests};

// Where an input lies in the lent buffer.
#[derive(Clone, Copy)]
pub struct Place {
    pub start: usize,
    pub len: usize,
}

// Where the four inputs of a proof lie.
#[derive(Clone, Copy)]
pub struct Places {
    pub circuit: Place,
    pub y: Place,
    pub message: Place,
    pub proof: Place,
}

// A waiting proof: its places, the number of its next instance, and the digests over the instances so far.
#[derive(Clone, Copy)]
pub struct Job {
    pub places: Places,
    pub next: u32,
    pub digests: Running,
}

// What a service gives: the proof as it goes on, or its verdict.
#[derive(Clone, Copy)]
pub enum Served {
    GoesOn(Job),
    Finished(Result<(), Refusal>),
}

// The state of the checker: the caller to begin with, 0 at first and then one above the last served, who waits, and their proofs.
#[derive(Clone, Copy)]
pub struct Shared {
    pub begin: u8,
    pub waiting: [bool; 16],
    pub jobs: [Job; 16],
}

// A proof that enters: no instance is taken in.
pub fn job_at(places: Places) -> Job
    ensures { result ≡ job_at places }
{
    Job {
        places,
        next: 0,
        digests: start_digests(),
    }
}

// The empty state: nobody was served, and nobody waits.
pub fn start() -> Shared
    ensures { state_of result ≡ empty }
{
    let none = Place { start: 0, len: 0 };
    let places = Places {
        circuit: none,
        y: none,
        message: none,
        proof: none,
    };
    let job = job_at(places);
    Shared {
        begin: 0,
        waiting: [false; 16],
        jobs: [job; 16],
    }
}
