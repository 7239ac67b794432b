// Two circuits with the same inputs joined to one.
#![tactic(auto)]

ghost use Rattle.std.specs.Prelude.{◌≡◌, ◌&&◌, ◌+◌, ◌*◌, ◌≤◌, ◌<◌, leb, length};
ghost use Rattle.std.proofs.lemmas.List.Edits.{sets};
ghost use Rattle.circuit.specs.Building.{builds};
ghost use Rattle.circuit.specs.File.{width, max_outputs, max_gates, fields_of};
ghost use Rattle.join.specs.Answers.{outcome};
ghost use Rattle.join.specs.Join.{moved_wire, moved_link, led_on, first_slot, second_slot, joined, join_op};
ghost use Rattle.join.specs.Steps.{ReadAs, Slot, Pair, slots_at, fields_in, onward, joined_fields, four_of, placed};

use building::write_four;
use circuit::records::field;
use circuit::{MAX_GATES, MAX_OUTPUTS, Sizes, WIDTH};
use reading::read;
use refusal::Refusal;

// A wire of the second circuit: an input stays, another goes up.
fn moved_wire(inputs: usize, up: usize, wire: u32) -> u32
    requires { wire + up < 4294967296 }
    ensures { result ≡ moved_wire inputs up wire }
{
    let w = wire as usize;
    if w < inputs {
        return wire;
    }
    (w + up) as u32
}

// A link of the second circuit: a slot goes up, 0 stays.
fn moved_link(up: usize, link: u32) -> u32
    requires { link + up < 4294967296 }
    ensures { result ≡ moved_link up link }
{
    if link == 0 {
        return 0;
    }
    (link as usize + up) as u32
}

// A link of the first circuit: 0 leads on.
fn led_on(to: u32, link: u32) -> u32
    ensures { result ≡ led_on to link }
{
    if link == 0 {
        return to;
    }
    link
}

// Output wire j of the joined circuit: the first's, then the second's.
fn joined_output(first: &[u8], second: &[u8], y: Sizes, z: Sizes, j: usize) -> u32
    requires { Pair first.now second.now y z × (j < y.outputs + z.outputs) }
    ensures { result ≡ joined_fields first.now second.now (4 + j) }
{
    let outputs = y.outputs;
    if j < outputs {
        return field(first, WIDTH, 4 + j);
    }
    let wire = field(second, WIDTH, 4 + (j - outputs));
    moved_wire(y.inputs, y.gates, wire)
}

// Writes the output wires of the joined circuit.
fn write_outputs(first: &[u8], second: &[u8], y: Sizes, z: Sizes, out: &mut [u8])
    requires { Pair first.now second.now y z × (width * slots_at y z ≤ length out.old) }
    ensures { out.new ≡ placed (joined_fields first.now second.now) 4 (y.outputs + z.outputs) out.old }
{
    let n = y.outputs + z.outputs;
    for j in 0..n {
        let wire = joined_output(first, second, y, z, j);
        bits::write_u32(out, WIDTH * (4 + j), wire);
    }
}

// Writes slot k + 1 of the first circuit at field `at`; its chain leads on to slot `to`.
fn write_first(first: &[u8], outputs: usize, to: u32, k: usize, at: usize, out: &mut [u8])
    requires { Slot first.now outputs k × (width * (at + 4) ≤ length out.old) }
    ensures { out.new ≡ sets out.old (width * at) (four_of (first_slot to (fields_of first.now) (1 + k))) }
{
    let from = 4 + outputs + 4 * k;
    let kind = field(first, WIDTH, from);
    let a = field(first, WIDTH, from + 1);
    let b = field(first, WIDTH, from + 2);
    let next = field(first, WIDTH, from + 3);
    write_four(out, at, kind, a, b, led_on(to, next));
}

// Writes slot k + 1 of the second circuit, moved up, at field `at`.
fn write_second(
    second: &[u8],
    inputs: usize,
    up: usize,
    outputs: usize,
    k: usize,
    at: usize,
    out: &mut [u8],
)
    requires { Slot second.now outputs k × ((up ≤ max_gates) × (width * (at + 4) ≤ length out.old)) }
    ensures { out.new ≡ sets out.old (width * at) (four_of (second_slot inputs up (fields_of second.now) (1 + k))) }
{
    let from = 4 + outputs + 4 * k;
    let kind = field(second, WIDTH, from);
    let a = field(second, WIDTH, from + 1);
    let b = field(second, WIDTH, from + 2);
    let next = field(second, WIDTH, from + 3);
    let wire = moved_wire(inputs, up, a);
    let other = moved_wire(inputs, up, b);
    write_four(out, at, kind, wire, other, moved_link(up, next));
}

// Writes slot k + 1 of the joined circuit: the first's, then the second's.
fn write_slot(first: &[u8], second: &[u8], y: Sizes, z: Sizes, to: u32, k: usize, out: &mut [u8])
    requires { Pair first.now second.now y z × ((to ≡ onward first.now second.now) × ((k < y.gates + z.gates) × (width * fields_in y z ≤ length out.old))) }
    ensures { out.new ≡ placed (joined_fields first.now second.now) (slots_at y z + 4 * k) 4 out.old }
{
    let at = 4 + (y.outputs + z.outputs) + 4 * k;
    let gates = y.gates;
    if k < gates {
        write_first(first, y.outputs, to, k, at, out);
    } else {
        write_second(second, y.inputs, gates, z.outputs, k - gates, at, out);
    }
}

// Writes the slots of the joined circuit; the first's chain leads on to slot `to`.
fn write_slots(first: &[u8], second: &[u8], y: Sizes, z: Sizes, to: u32, out: &mut [u8])
    requires { Pair first.now second.now y z × ((to ≡ onward first.now second.now) × (width * fields_in y z ≤ length out.old)) }
    ensures { out.new ≡ placed (joined_fields first.now second.now) (slots_at y z) (4 * (y.gates + z.gates)) out.old }
{
    let n = y.gates + z.gates;
    for k in 0..n {
        write_slot(first, second, y, z, to, k, out);
    }
}

// Writes the joined file: header, output wires, slots.
fn write_joined(first: &[u8], second: &[u8], y: Sizes, z: Sizes, out: &mut [u8])
    requires { Pair first.now second.now y z × (width * fields_in y z ≤ length out.old) }
    ensures { out.new ≡ placed (joined_fields first.now second.now) 0 (fields_in y z) out.old }
{
    let to = moved_link(y.gates, field(second, WIDTH, 3));
    let head = led_on(to, field(first, WIDTH, 3));
    let outputs = (y.outputs + z.outputs) as u32;
    let gates = (y.gates + z.gates) as u32;
    write_four(out, 0, y.inputs as u32, outputs, gates, head);
    write_outputs(first, second, y, z, out);
    write_slots(first, second, y, z, to, out);
}

// Writes the joined file, if the output is long enough.
fn build(first: &[u8], second: &[u8], y: Sizes, z: Sizes, out: &mut [u8]) -> Result<usize, Refusal>
    requires { Pair first.now second.now y z }
    ensures { outcome result out.new ≡ builds (joined first.now second.now) out.old }
{
    let size = WIDTH * (4 + (y.outputs + z.outputs) + 4 * (y.gates + z.gates));
    if out.len() < size {
        return Err(Refusal::BufferLength);
    }
    write_joined(first, second, y, z, out);
    Ok(size)
}

// Whether sums of outputs and of gates are within the limits.
fn sums_within(outputs: usize, gates: usize) -> bool
    ensures { result ≡ leb outputs max_outputs && leb gates max_gates }
{
    outputs <= MAX_OUTPUTS && gates <= MAX_GATES
}

// Joins two legal circuits: 25 where the inputs differ in number, then 2 where a sum is beyond the limits.
fn join_legal(
    first: &[u8],
    second: &[u8],
    y: Sizes,
    z: Sizes,
    out: &mut [u8],
) -> Result<usize, Refusal>
    requires { ReadAs first.now y × ReadAs second.now z }
    ensures { outcome result out.new ≡ join_op first.now second.now out.old }
{
    let within = sums_within(y.outputs + z.outputs, y.gates + z.gates);
    let same = y.inputs == z.inputs;
    if !same {
        return Err(Refusal::InputCounts);
    }
    if !within {
        return Err(Refusal::Limits);
    }
    build(first, second, y, z, out)
}

// Reads the second circuit, and joins the two.
fn join_second(first: &[u8], second: &[u8], y: Sizes, out: &mut [u8]) -> Result<usize, Refusal>
    requires { ReadAs first.now y }
    ensures { outcome result out.new ≡ join_op first.now second.now out.old }
{
    let z = read(second)?;
    join_legal(first, second, y, z, out)
}

// Joins two circuits into the lent output: the joined file's length; or the first circuit's refusal, then the second's, 25 where the inputs
// differ in number, 2 where a sum is beyond the limits, 6 for a short output. A refusal leaves the output as it was.
pub fn join(first: &[u8], second: &[u8], out: &mut [u8]) -> Result<usize, Refusal>
    ensures { outcome result out.new ≡ join_op first.now second.now out.old }
{
    let y = read(first)?;
    join_second(first, second, y, out)
}
