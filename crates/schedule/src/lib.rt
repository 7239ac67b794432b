// The cyclic schedule of a checker that 16 callers share: who is served next.
#![tactic(auto)]

ghost use Rattle.std.specs.Prelude.{◌≡◌, ◌≤◌};
ghost use Rattle.schedule.specs.Schedule.{begin as «begin-of»};
ghost use Rattle.schedule.specs.Callers.{last_served};
ghost use Rattle.schedule.specs.Steps.{next_caller, first_waiting};

// The callers.
pub const CALLERS: u8 = 16;

// The caller with whom to begin; a number above 16 counts as 0.
pub fn asked_first(begin: u8) -> u8
    ensures { result ≡ «begin-of» (last_served begin) }
{
    if begin < 17 {
        return begin;
    }
    0
}

// The first of the callers from..to that waits, 16 if there is none.
fn first_waiting(waiting: [bool; 16], from: u8, to: u8) -> u8
    requires { to ≤ 16 }
    ensures { result ≡ first_waiting waiting from to }
{
    for i in from..to {
        if waiting[i as usize] {
            return i;
        }
    }
    CALLERS
}

// The caller to be served next, 16 if nobody waits. `begin` is 0 at first, then one above the last served.
pub fn next_caller(begin: u8, waiting: [bool; 16]) -> u8
    ensures { result ≡ next_caller begin waiting }
{
    let from = asked_first(begin);
    let c = first_waiting(waiting, from, CALLERS);
    if c < CALLERS {
        return c;
    }
    first_waiting(waiting, 0, from)
}
