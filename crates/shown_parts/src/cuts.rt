// The bits of a broadcast row that a cut shows.
ghost use Rattle.std.specs.Prelude.{◌≡◌, ◌≤◌};
ghost use Rattle.circuit.specs.Circuit.{ands};
ghost use Rattle.circuit.specs.File.{head_of, circuit_of};
ghost use Rattle.circuit.specs.Steps.{Chained, gates_from};
ghost use Rattle.plain.specs.Showing.{shown_bits};
ghost use Rattle.mpc.specs.Steps.{Known};

use circuit::Sizes;
use circuit::records::{and_one, record};

// The AND gates among the first `cut` gates.
fn ands_passed(s: &[u8], z: Sizes, head: usize, cut: usize) -> usize
    requires { Chained s.now z.inputs z.outputs z.gates head × (cut ≤ z.gates) }
    ensures { result ≡ ands (gates_from s.now cut head) }
{
    let outputs = z.outputs;
    let mut count = 0;
    let mut slot = head;
    for _ in 0..cut {
        let r = record(s, outputs, slot);
        let g = r.gate;
        count += and_one(g);
        slot = r.next;
    }
    count
}

// The bits of a broadcast row that a cut shows.
pub(crate) fn shown_bits(s: &[u8], z: Sizes, head: usize, cut: usize) -> usize
    requires { Known s.now z × ((head ≡ head_of s.now) × (cut ≤ z.gates)) }
    ensures { result ≡ shown_bits (circuit_of s.now) cut }
{
    if cut < z.gates {
        return ands_passed(s, z, head, cut);
    }
    z.ands + z.outputs
}
