// The tests of reading a circuit but for the chain, each on its own, and the count of its AND gates: for files with fields of `bytes` bytes.
#![tactic(auto)]

ghost use Rattle.std.specs.Prelude.{◌≡◌, ◌&&◌, ◌||◌, length};
ghost use Rattle.circuit.specs.Circuit.{ands};
ghost use Rattle.circuit.specs.Fields.{field, good_record, good_records, good_outputs};
ghost use Rattle.circuit.specs.FieldSteps.{Inside, Laid, Chained, limits, gates_from, inputs_first};
ghost use Rattle.circuit.specs.Steps.{wire_bytes, readable, seen};

use circuit::records::{and_one, field, record_with};
use circuit::{Front, Gate, MAX_INPUTS, MAX_OUTPUTS, MAX_WIRES, WIRE_BYTES};

// Refusal 2: I, O and G within limits, at most `most` for G.
pub fn within_limits(most: usize, inputs: usize, outputs: usize, gates: usize) -> bool
    ensures { result ≡ limits most inputs outputs gates }
{
    (1..=MAX_INPUTS).contains(&inputs) && (1..=MAX_OUTPUTS).contains(&outputs) && gates <= most
}

// Refusal 3, one slot: a known kind, and INV with b zero.
fn good_record(s: &[u8], bytes: usize, outputs: usize, slot: usize) -> bool
    requires { Inside bytes s.now outputs slot }
    ensures { result ≡ good_record (field bytes s.now) slot }
{
    let at = 4 + outputs + 4 * (slot - 1);
    let kind = field(s, bytes, at);
    let b = field(s, bytes, at + 2);
    kind == 1 || kind == 2 || (kind == 3 && b == 0)
}

// Refusal 3: every slot.
pub fn good_records(s: &[u8], f: Front) -> bool
    requires { Laid f.width s.now f.inputs f.outputs f.gates }
    ensures { result ≡ good_records (field f.width s.now) f.gates }
{
    let mut good = true;
    // Not `all`, which branches at each record: a legal file has no bad one.
    for k in 0..f.gates {
        good &= good_record(s, f.width, f.outputs, k + 1);
    }
    good
}

// Refusal 5, the outputs: each wire below I + G.
pub fn good_outputs(s: &[u8], f: Front) -> bool
    requires { Laid f.width s.now f.inputs f.outputs f.gates }
    ensures { result ≡ good_outputs (field f.width s.now) f.outputs }
{
    let wires = f.inputs + f.gates;
    (0..f.outputs).all(|j| (field(s, f.width, 4 + j) as usize) < wires)
}

// Whether a wire is an input, or its bit is set.
fn is_written(flags: &[u8], inputs: usize, wire: usize) -> bool
    requires { length flags.now ≡ wire_bytes }
    ensures { result ≡ seen inputs flags.now wire }
{
    if wire < inputs {
        return true;
    }
    if wire < MAX_WIRES {
        return bits::bit(flags, wire) == 1;
    }
    false
}

// Whether a gate reads only written wires.
fn reads_written(flags: &[u8], inputs: usize, gate: Gate) -> bool
    requires { length flags.now ≡ wire_bytes }
    ensures { result ≡ readable (seen inputs flags.now) gate }
{
    match gate {
        Gate::Xor(a, b) => is_written(flags, inputs, a) && is_written(flags, inputs, b),
        Gate::And(a, b) => is_written(flags, inputs, a) && is_written(flags, inputs, b),
        Gate::Inv(a) => is_written(flags, inputs, a),
    }
}

// Refusal 5, the gates: each reads only inputs or wires written earlier on the chain.
pub fn good_reads(s: &[u8], f: Front) -> bool
    requires { Chained f.width s.now f.inputs f.outputs f.gates f.head }
    ensures { result ≡ inputs_first (field f.width s.now) f.gates f.head }
{
    let inputs = f.inputs;
    let mut flags = [0u8; WIRE_BYTES];
    let mut slot = f.head;
    for _ in 0..f.gates {
        let r = record_with(s, f.width, f.outputs, slot);
        let gate = r.gate;
        if !reads_written(&flags, inputs, gate) {
            return false;
        }
        bits::put_bit(&mut flags, inputs + (slot - 1), 1);
        slot = r.next;
    }
    true
}

// A, the number of AND gates.
pub fn and_count(s: &[u8], f: Front) -> usize
    requires { Chained f.width s.now f.inputs f.outputs f.gates f.head }
    ensures { result ≡ ands (gates_from (field f.width s.now) f.gates f.head) }
{
    let mut count = 0;
    let mut slot = f.head;
    for _ in 0..f.gates {
        let r = record_with(s, f.width, f.outputs, slot);
        let gate = r.gate;
        count += and_one(gate);
        slot = r.next;
    }
    count
}
