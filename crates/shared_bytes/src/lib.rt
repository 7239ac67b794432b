// The shared checker on a state that is bytes, for a host that keeps it.
#![tactic(auto)]

ghost use Rattle.std.specs.Prelude.{◌≡◌, [], ◌∷◌};
ghost use Rattle.shared_bytes.specs.Operations.{start_op, places_of, enter_op, call_op};
ghost use Rattle.shared_bytes.specs.Answers.{enter_paper, check_paper};

use calling::call;
use refusal::Refusal;
use shared::{Place, Places};
use state_bytes::decoding::decode;
use state_bytes::writing::encode;

// The empty state.
pub fn start(state: &mut [u8; 7537])
    ensures { state.new ∷ [] ≡ start_op.left }
{
    encode(shared::start(), state)
}

// Four places by their numbers: start and length of circuit, y, message and proof.
fn places_of(n: &[u64; 8]) -> Places
    ensures { result ≡ places_of n.now }
{
    Places {
        circuit: Place {
            start: n[0] as usize,
            len: n[1] as usize,
        },
        y: Place {
            start: n[2] as usize,
            len: n[3] as usize,
        },
        message: Place {
            start: n[4] as usize,
            len: n[5] as usize,
        },
        proof: Place {
            start: n[6] as usize,
            len: n[7] as usize,
        },
    }
}

// Enters a proof. A refused entry leaves the state as it was.
pub fn enter(
    state: &mut [u8; 7537],
    caller: u32,
    places: &[u64; 8],
    buffer: &[u8],
    work: &mut [u8],
) -> Result<(), Refusal>
    ensures { (enter_paper result ≡ (enter_op state.old caller places.now buffer.now work.old).answer) × (state.new ∷ work.new ∷ [] ≡ (enter_op state.old caller places.now buffer.now work.old).left) }
{
    let s = decode(state);
    let p = places_of(places);
    let after = entry::enter(s, caller, p, buffer, work)?;
    encode(after, state);
    Ok(())
}

// Checks a quota of instances: how many were checked. A refused call leaves the state and the verdicts as they were.
pub fn check(
    state: &mut [u8; 7537],
    quota: u32,
    buffer: &[u8],
    verdicts: &mut [u8; 16],
    work: &mut [u8],
) -> Result<u32, Refusal>
    ensures { (check_paper result ≡ (call_op state.old quota buffer.now verdicts.old work.old).answer) × (state.new ∷ verdicts.new ∷ work.new ∷ [] ≡ (call_op state.old quota buffer.now verdicts.old work.old).left) }
{
    let s = decode(state);
    let r = call(s, quota, buffer, work)?;
    let after = r.state;
    encode(after, state);
    let told = r.verdicts;
    *verdicts = told;
    Ok(r.count)
}
