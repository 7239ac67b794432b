// The walk over the gate lines, which tests them in their order.
ghost use Rattle.std.specs.Prelude.{◌≡◌, length};
ghost use Rattle.circuit.specs.Steps.{wire_bytes};
ghost use Rattle.bristol_text.specs.Steps.{ending, stop};
ghost use Rattle.bristol_lines.specs.Steps.{Few, LineTold, verdict, refusal_of, gates_at};

use bristol_lines::Sizes;
use bristol_lines::gates::{fits, next_gate, output_wire};
use bristol_text::{Cursor, next_line};
use circuit::WIRE_BYTES;
use refusal::Refusal;

// Tests the next line as a gate line below those whose wires are flagged: the wire that it writes, and the place after it.
fn check_line(
    s: &[u8],
    z: Sizes,
    c: Cursor,
    flags: &[u8; WIRE_BYTES],
) -> Result<(usize, Cursor), Refusal>
    requires { (length flags.now ≡ wire_bytes) × Few z }
    ensures { LineTold s.now z c.at flags.now result }
{
    let (gate, next) = next_gate(s, c);
    let gate = gate?;
    if !fits(flags, z.inputs, z.gates, gate) {
        return Err(Refusal::Text);
    }
    Ok((output_wire(gate), next))
}

// Where the next line starts, or the end where none is left. A function of its own in the archive too: within the walk the place of the text would be
// loaded anew for each blank line.
#[inline(never)]
fn next_start(s: &[u8], c: Cursor) -> usize
    ensures { result ≡ stop ending s.now c.at }
{
    next_line(s, c).first
}

// Tests the gate lines, and that no line follows them.
pub(crate) fn check_gates(s: &[u8], z: Sizes, c: Cursor) -> Result<(), Refusal>
    requires { Few z }
    ensures { verdict result ≡ refusal_of (gates_at s.now z c.at) }
{
    let mut flags = [0; WIRE_BYTES];
    let mut at = c.at;
    for _ in 0..z.gates {
        let (wire, next) = check_line(s, z, Cursor { at }, &flags)?;
        bits::put_bit(&mut flags, wire, 1);
        at = next.at;
    }
    let first = next_start(s, Cursor { at });
    if first < s.len() {
        return Err(Refusal::Text);
    }
    Ok(())
}
