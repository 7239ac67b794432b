// The gates of a circuit in chain order on words, and then its output wires, for up to 64 parties.
#![tactic(auto)]

ghost use Rattle.std.specs.Prelude.{◌≡◌, ◌+◌, ◌≤◌};
ghost use Rattle.bits.specs.Bits.{tabulate, pack};
ghost use Rattle.walk.specs.Steps.{layout_of, Ready, Ended, Lent, walked, outputs_sent, output_bit, outputs_run, values_run};

use circuit::Sizes;
use circuit::records::{and_one, output_wire, record};
use gates::{gate, output};
use planes::Layout;

// The layout of the work memory for a circuit.
pub fn layout(z: Sizes) -> Layout
    requires { z.inputs + z.gates ≤ 1048576 }
    ensures { result ≡ layout_of z }
{
    Layout {
        wires: z.inputs + z.gates,
        inputs: z.inputs,
        ands: z.ands,
        outputs: z.outputs,
    }
}

// Runs the gates in chain order; at the places of hidden the broadcasts stand in their places already.
fn walk(s: &[u8], z: Sizes, head: usize, hidden: u64, memory: &mut [u8])
    requires { Ready s.now z head memory.old }
    ensures { memory.new ≡ walked (layout_of z) hidden s.now z.gates head 0 memory.old }
{
    let l = layout(z);
    let mut slot = head;
    let mut t = 0;
    for _ in 0..z.gates {
        let r = record(s, z.outputs, slot);
        gate(memory, l, r.gate, z.inputs + (slot - 1), t, hidden);
        t += and_one(r.gate);
        slot = r.next;
    }
}

// Broadcasts the output masks, after the broadcasts of the AND gates, and fills y with the outputs.
pub fn broadcast_outputs(s: &[u8], z: Sizes, hidden: u64, memory: &mut [u8], y: &mut [u8])
    requires { Ended s.now z memory.old y.old }
    ensures memory_after { memory.new ≡ outputs_sent (layout_of z) hidden s.now z.outputs memory.old }
    ensures y_after { y.new ≡ pack (tabulate z.outputs (output_bit (layout_of z) hidden s.now memory.old)) }
{
    let l = layout(z);
    bits::clear(y);
    for j in 0..z.outputs {
        let w = output_wire(s, j);
        let x = output(memory, l, w, z.ands + j, hidden);
        bits::put_bit(y, j, x);
    }
}

// Runs the gates and then the output wires of a legal circuit; y takes the outputs.
pub fn run(s: &[u8], z: Sizes, hidden: u64, memory: &mut [u8], y: &mut [u8])
    requires { Lent s.now z memory.old y.old }
    ensures memory_after { memory.new ≡ outputs_run s.now z hidden memory.old }
    ensures y_after { y.new ≡ pack (values_run s.now z hidden memory.old) }
{
    walk(s, z, circuit::records::head(s), hidden, memory);
    broadcast_outputs(s, z, hidden, memory, y);
}
