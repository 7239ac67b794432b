// Every small circuit in turn (document 02, order 11): the file at a place, found by division.
#![tactic(auto)]

ghost use Rattle.std.specs.Prelude.{◌≡◌, ◌+◌, ◌*◌, ◌≤◌, ◌<◌, length};
ghost use Rattle.std.proofs.lemmas.List.Edits.{sets};
ghost use Rattle.circuit.specs.File.{width};
ghost use Rattle.small.specs.Answers.{outcome};
ghost use Rattle.small.specs.Small.{in_bytes, small_sizes, small_op};
ghost use Rattle.small.specs.Steps.{wire_of, gates_on, gate_at, record_fields, front_of, pairs, per_head, count_of, pair_at, fields_at};

use building::write_four;
use circuit::WIDTH;
use refusal::Refusal;

// A gate by the first three fields of its record, as written: the kind is found by division, so it is a number.
#[derive(Clone, Copy)]
pub struct Gate {
    pub kind: u32,
    pub a: u32,
    pub b: u32,
}

// Wire i of those that a gate reads: the inputs, then one more.
fn wire(inputs: u32, other: u32, i: u32) -> u32
    ensures { result ≡ wire_of inputs other i }
{
    if i < inputs {
        return i;
    }
    other
}

// How many gates can read so many wires: XOR and AND of two, INV of one.
fn gates_on(wires: u32) -> u32
    requires { wires ≤ 3 }
    ensures { result ≡ gates_on wires }
{
    2 * (wires * wires) + wires
}

// Gate r of those that read so many wires, by kind, a, b.
fn gate_at(inputs: u32, other: u32, wires: u32, r: u32) -> Gate
    requires { (1 ≤ wires) × (wires ≤ 3) }
    ensures { result ≡ gate_at inputs other wires r }
{
    let square = wires * wires;
    if r < 2 * square {
        let pair = r % square;
        let first = pair / wires;
        let second = pair % wires;
        let kind = 1 + r / square;
        return Gate {
            kind,
            a: wire(inputs, other, first),
            b: wire(inputs, other, second),
        };
    }
    Gate {
        kind: 3,
        a: wire(inputs, other, r - 2 * square),
        b: 0,
    }
}

// Writes the header and the output wire.
fn write_front(inputs: u32, gates: u32, head: u32, output: u32, out: &mut [u8])
    requires { width * 5 ≤ length out.old }
    ensures { out.new ≡ sets out.old 0 (in_bytes (front_of inputs gates head output)) }
{
    write_four(out, 0, inputs, 1, gates, head);
    bits::write_u32(out, WIDTH * 4, output);
}

// Writes a gate's record, with its link, from field k on.
fn write_gate(out: &mut [u8], k: usize, g: Gate, next: u32)
    requires { width * (k + 4) ≤ length out.old }
    ensures { out.new ≡ sets out.old (width * k) (in_bytes (record_fields g next)) }
{
    write_four(out, k, g.kind, g.a, g.b, next);
}

// How many pairs of gates there are with a head and an output wire, and how many files with a head.
fn pairs(inputs: u32) -> u32
    requires { inputs ≤ 2 }
    ensures { result ≡ pairs inputs }
{
    gates_on(inputs) * gates_on(inputs + 1)
}

fn per_head(inputs: u32) -> u32
    requires { inputs ≤ 2 }
    ensures { result ≡ per_head inputs }
{
    (inputs + 2) * pairs(inputs)
}

// How many files there are.
fn count(inputs: u32, gates: u32) -> u32
    requires { (inputs ≤ 2) × (gates ≤ 2) }
    ensures { result ≡ count_of inputs gates }
{
    if gates == 0 {
        return inputs;
    }
    if gates == 1 {
        return (inputs + 1) * gates_on(inputs);
    }
    2 * per_head(inputs)
}

// Writes the records of pair r: the gate first on the chain reads inputs, the other one its output too.
fn write_pair(inputs: u32, head: u32, r: u32, out: &mut [u8])
    requires { (1 ≤ inputs) × ((inputs ≤ 2) × (width * 13 ≤ length out.old)) }
    ensures { out.new ≡ sets out.old (width * 5) (in_bytes (pair_at inputs head r)) }
{
    let more = inputs + 1;
    if head == 1 {
        let after = gates_on(more);
        let first = gate_at(inputs, 0, inputs, r / after);
        let second = gate_at(inputs, inputs, more, r % after);
        write_gate(out, 5, first, 2);
        write_gate(out, 9, second, 0);
    } else {
        let after = gates_on(inputs);
        let first = gate_at(inputs, more, more, r / after);
        let second = gate_at(inputs, 0, inputs, r % after);
        write_gate(out, 5, first, 0);
        write_gate(out, 9, second, 1);
    }
}

// Writes the file of one gate at a place.
fn write_one(inputs: u32, place: u32, out: &mut [u8])
    requires { (1 ≤ inputs) × ((inputs ≤ 2) × (width * 9 ≤ length out.old)) }
    ensures { out.new ≡ sets out.old 0 (in_bytes (fields_at inputs 1 place)) }
{
    let after = gates_on(inputs);
    let only = gate_at(inputs, 0, inputs, place % after);
    write_front(inputs, 1, 1, place / after, out);
    write_gate(out, 5, only, 0);
}

// Writes the file of two gates at a place.
fn write_two(inputs: u32, place: u32, out: &mut [u8])
    requires { (1 ≤ inputs) × ((inputs ≤ 2) × ((place < count_of inputs 2) × (width * 13 ≤ length out.old))) }
    ensures { out.new ≡ sets out.old 0 (in_bytes (fields_at inputs 2 place)) }
{
    let with_head = per_head(inputs);
    let with_output = pairs(inputs);
    let head = 1 + place / with_head;
    let r = place % with_head;
    write_front(inputs, 2, head, r / with_output, out);
    write_pair(inputs, head, r % with_output, out);
}

// Writes the file at a place.
fn write_file(inputs: u32, gates: u32, place: u32, out: &mut [u8])
    requires { (1 ≤ inputs) × ((inputs ≤ 2) × ((gates ≤ 2) × ((place < count_of inputs gates) × (width * (5 + 4 * gates) ≤ length out.old)))) }
    ensures { out.new ≡ sets out.old 0 (in_bytes (fields_at inputs gates place)) }
{
    if gates == 0 {
        write_front(inputs, 0, 0, place, out);
    } else if gates == 1 {
        write_one(inputs, place, out);
    } else {
        write_two(inputs, place, out);
    }
}

// Whether the sizes are small: I of 1 or 2, O = 1 and G up to 2.
#[tactic(auto, unfolding(crate::specs::Small::small_sizes))]
fn small_sizes(inputs: u32, outputs: u32, gates: u32) -> bool
    ensures { result ≡ small_sizes inputs outputs gates }
{
    (inputs == 1 || inputs == 2) && outputs == 1 && gates <= 2
}

// The file at a place, written into the lent output: its length, or none where the last has passed; 29 for other sizes, 6 for a short output.
// The output stays as it was where no file is written.
pub fn small(
    inputs: u32,
    outputs: u32,
    gates: u32,
    place: u64,
    out: &mut [u8],
) -> Result<Option<usize>, Refusal>
    ensures { outcome result out.new ≡ small_op inputs outputs gates place out.old }
{
    if !small_sizes(inputs, outputs, gates) {
        return Err(Refusal::SmallSizes);
    }
    let last = count(inputs, gates) as u64 - 1;
    let size = WIDTH * (5 + 4 * gates as usize);
    if place > last {
        return Ok(None);
    }
    if out.len() < size {
        return Err(Refusal::BufferLength);
    }
    write_file(inputs, gates, place as u32, out);
    Ok(Some(size))
}
