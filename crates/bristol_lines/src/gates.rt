// The gate lines of a text.
ghost use Rattle.std.specs.Prelude.{◌≡◌, ◌≤◌, length};
ghost use Rattle.circuit.specs.File.{max_inputs, max_gates};
ghost use Rattle.circuit.specs.Steps.{wire_bytes};
ghost use Rattle.bristol_lines.specs.Rules.{kind_on, writes};
ghost use Rattle.bristol_lines.specs.Steps.{line_of, gate_read, gate_from, starts_with, GateAt, may_read, may_write, fits_flags};

use crate::{Gate, Kind};
use bristol_text::{Cursor, Span, last_token, next_line, read_fields};
use circuit::{MAX_WIRES, WIRE_BYTES};
use refusal::Refusal;

// The kind on a gate line.
fn line_kind(l: &[u8]) -> Kind
    ensures { result ≡ kind_on l.now }
{
    // Tried as a `match` on the bytes: the proof did not close, what remained is nine goals that have no name of the source's.
    let name = &l[last_token(l)..];
    if name == b"XOR".as_slice() {
        return Kind::Xor;
    }
    if name == b"AND".as_slice() {
        return Kind::And;
    }
    if name == b"INV".as_slice() {
        return Kind::Inv;
    }
    Kind::Other
}

// Whether so many numbers, with these first, are those of a gate with one or two inputs.
#[tactic(auto, unfolding(crate::specs::Steps::starts_with))]
fn begins_with(inputs: usize, count: usize, first: usize, second: usize) -> bool
    requires { inputs ≤ 2 }
    ensures { result ≡ starts_with inputs count first second }
{
    count == inputs + 3 && first == inputs && second == 1
}

// The gate of a kind with so many numbers, of which these are the first.
#[tactic(auto, unfolding(crate::specs::Steps::gate_from))]
fn gate_of(kind: Kind, count: usize, n: [usize; 5]) -> Result<Gate, Refusal>
    ensures { result ≡ gate_from kind count n }
{
    match kind {
        Kind::Xor if begins_with(2, count, n[0], n[1]) => Ok(Gate::Xor(n[2], n[3], n[4])),
        Kind::And if begins_with(2, count, n[0], n[1]) => Ok(Gate::And(n[2], n[3], n[4])),
        Kind::Inv if begins_with(1, count, n[0], n[1]) => Ok(Gate::Inv(n[2], n[3])),
        Kind::Other => Err(Refusal::GateKind),
        _ => Err(Refusal::Text),
    }
}

// The gate on a line, which an LF ends or not. Its kind is tested first, then its form: an LF, and numbers before the kind.
#[tactic(auto, using(crate::proofs::Lined::gate_unknown))]
fn line_gate(l: &[u8], ended: bool) -> Result<Gate, Refusal>
    ensures { result ≡ gate_read (record { bytes = l.now; ended = ended }) }
{
    let kind = line_kind(l);
    if let Kind::Other = kind {
        return Err(Refusal::GateKind);
    }
    let Some(f) = read_fields(l) else {
        return Err(Refusal::Text);
    };
    if !ended {
        return Err(Refusal::Text);
    }
    gate_of(kind, f.count, f.numbers)
}

// The gate on the next line, and the place after it.
#[tactic(auto, using(crate::proofs::Lined::read_here, crate::proofs::Lined::rest_here))]
pub fn next_gate(s: &[u8], c: Cursor) -> (Result<Gate, Refusal>, Cursor)
    ensures { GateAt s.now c.at result.0 result.1.at }
{
    let Span { first, last } = next_line(s, c);
    if s.len() <= first {
        return (Err(Refusal::Text), Cursor { at: last });
    }
    let gate = line_gate(&s[first..last], last < s.len());
    (gate, Cursor { at: last })
}

// The wire that a gate writes.
#[tactic(auto, unfolding(crate::specs::Rules::writes))]
pub fn output_wire(g: Gate) -> usize
    ensures { result ≡ writes (line_of g) }
{
    match g {
        Gate::Xor(_, _, c) | Gate::And(_, _, c) | Gate::Inv(_, c) => c,
    }
}

// Whether a wire is an input or written on a line above, on a line that writes wire `own`.
fn may_read(flags: &[u8; WIRE_BYTES], inputs: usize, own: usize, wire: usize) -> bool
    requires { length flags.now ≡ wire_bytes }
    ensures { result ≡ may_read inputs flags.now own wire }
{
    if wire < inputs {
        return true;
    }
    if wire != own && wire < MAX_WIRES {
        return bits::bit(flags, wire) == 1;
    }
    false
}

// Whether a wire is no input, and its flag is not set.
fn may_write(flags: &[u8; WIRE_BYTES], inputs: usize, gates: usize, wire: usize) -> bool
    requires { (length flags.now ≡ wire_bytes) × ((inputs ≤ max_inputs) × (gates ≤ max_gates)) }
    ensures { result ≡ may_write inputs gates flags.now wire }
{
    if wire < inputs {
        return false;
    }
    if wire < inputs + gates {
        return bits::bit(flags, wire) != 1;
    }
    false
}

// Whether a gate reads only inputs or wires written above, and writes another wire that is not written yet.
#[tactic(auto, unfolding(crate::specs::Steps::fits_flags))]
pub fn fits(flags: &[u8; WIRE_BYTES], inputs: usize, gates: usize, g: Gate) -> bool
    requires { (length flags.now ≡ wire_bytes) × ((inputs ≤ max_inputs) × (gates ≤ max_gates)) }
    ensures { result ≡ fits_flags inputs gates flags.now (line_of g) }
{
    match g {
        Gate::Xor(a, b, c) | Gate::And(a, b, c) => {
            may_read(flags, inputs, c, a)
                && may_read(flags, inputs, c, b)
                && may_write(flags, inputs, gates, c)
        }
        Gate::Inv(a, c) => { may_read(flags, inputs, c, a) && may_write(flags, inputs, gates, c) }
    }
}
