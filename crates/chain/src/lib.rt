// The chain of a circuit's gates: the walk from the head along the links, for files with fields of `bytes` bytes.
#![tactic(auto)]

ghost use Rattle.std.specs.Prelude.{◌≡◌, Err};
ghost use Rattle.circuit.specs.Chain.{walk_from};
ghost use Rattle.circuit.specs.Fields.{field, chain_walk};
ghost use Rattle.circuit.specs.FieldSteps.{Framed};
ghost use Rattle.circuit.specs.Steps.{walk_paper};

use circuit::records::record_with;
use circuit::{Fault, Front};
use refusal::Refusal;

// Refusals 19, 20 and 21: the walk from the head along the links, up to its end or to the first fault.
pub fn walk_chain(s: &[u8], f: Front) -> Result<(), Fault>
    requires { Framed f.width s.now f.inputs f.outputs f.gates f.head }
    ensures { walk_paper result ≡ chain_walk (field f.width s.now) }
{
    let gates = f.gates;
    let mut holder = 0;
    let mut link = f.head;
    for _ in 0..gates {
        if gates < link {
            return fault(Refusal::BeyondGates, holder);
        }
        if link == 0 {
            return fault(Refusal::EndsEarly, holder);
        }
        let r = record_with(s, f.width, f.outputs, link);
        holder = link;
        link = r.next;
    }
    last_link(gates, holder, link)
}

// Refusals 19 and 21, after G visits: what the walk comes to by the last link, which slot `at` holds.
fn last_link(gates: usize, at: usize, last: usize) -> Result<(), Fault>
    ensures { walk_paper result ≡ walk_from gates (λ _. last) 0 at }
{
    if gates < last {
        return fault(Refusal::BeyondGates, at);
    }
    if last == 0 {
        return Ok(());
    }
    fault(Refusal::GoesOn, at)
}

// The fault of a link that slot `slot` holds.
fn fault(refusal: Refusal, slot: usize) -> Result<(), Fault>
    ensures { result ≡ Err (record { refusal = refusal; slot = slot }) }
{
    Err(Fault { refusal, slot })
}
