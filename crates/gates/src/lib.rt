// The gates and an output wire on the work memory: a word has the bits of all parties, and one path serves every number of them.
#![tactic(auto)]

ghost use Rattle.std.specs.Prelude.{◌≡◌, ◌+◌, ◌<◌};
ghost use Rattle.circuit.specs.Steps.{within};
ghost use Rattle.planes.specs.Steps.{Room};
ghost use Rattle.gates.specs.Steps.{Fit, xor_step, inv_step, and_step, gate_step, output_step, output_value};

use circuit::Gate;
use planes::Layout;
use planes::places::{
    broadcast_word, mask_word, masked, put_masked, put_share, put_tape, share, tape,
};
use words::{chosen, parity};

// XOR of wires a and b into c.
pub fn xor_gate(memory: &mut [u8], l: Layout, a: usize, b: usize, c: usize)
    requires { Fit l a b c 0 memory.old }
    ensures { memory.new ≡ xor_step l a b c memory.old }
{
    let s = share(memory, l, a) ^ share(memory, l, b);
    let m = masked(memory, l, a) ^ masked(memory, l, b);
    put_share(memory, l, c, s);
    put_masked(memory, l, c, m);
}

// INV of wire a into c.
pub fn inv_gate(memory: &mut [u8], l: Layout, a: usize, c: usize)
    requires { Fit l a a c 0 memory.old }
    ensures { memory.new ≡ inv_step l a c memory.old }
{
    let s = share(memory, l, a);
    let m = 1 ^ masked(memory, l, a);
    put_share(memory, l, c, s);
    put_masked(memory, l, c, m);
}

// AND gate t of wires a and b into c. At the places of hidden the broadcast stands in its place already.
fn and_gate(memory: &mut [u8], l: Layout, a: usize, b: usize, c: usize, t: usize, hidden: u64)
    requires { Fit l a b c t memory.old }
    ensures { memory.new ≡ and_step l a b c t hidden memory.old }
{
    let o = mask_word(l, t);
    let z = broadcast_word(l, t);
    let ma = masked(memory, l, a);
    let mb = masked(memory, l, b);
    let sa = share(memory, l, a);
    let sb = share(memory, l, b);
    let masks = tape(memory, l, o);
    let products = tape(memory, l, z);
    let r = words::and_gate(ma, mb, sa, sb, products, masks, hidden, products);
    put_tape(memory, l, z, r.word);
    put_share(memory, l, c, masks);
    put_masked(memory, l, c, r.masked);
}

// A gate into wire c, with t AND gates before it.
pub fn gate(memory: &mut [u8], l: Layout, g: Gate, c: usize, t: usize, hidden: u64)
    requires { Fit l c c c t memory.old × within l.wires g }
    ensures { memory.new ≡ gate_step l g c t hidden memory.old }
{
    match g {
        Gate::Xor(a, b) => xor_gate(memory, l, a, b, c),
        Gate::And(a, b) => and_gate(memory, l, a, b, c, t, hidden),
        Gate::Inv(a) => inv_gate(memory, l, a, c),
    }
}

// Broadcast t of the shares of output wire w; answers the wire's value in the lowest bit. At the places of hidden the broadcast
// stands in its place already.
pub fn output(memory: &mut [u8], l: Layout, w: usize, t: usize, hidden: u64) -> u8
    requires { Room l memory.old × ((w < l.wires) × (t < l.ands + l.outputs)) }
    ensures memory_after { memory.new ≡ output_step l w t hidden memory.old }
    ensures value { result ≡ output_value l w t hidden memory.old }
{
    let z = broadcast_word(l, t);
    let m = masked(memory, l, w);
    let s = share(memory, l, w);
    let shown = tape(memory, l, z);
    let word = chosen(hidden, shown, s);
    put_tape(memory, l, z, word);
    m ^ parity(word)
}
