// The fields and the gate records of a circuit file.
ghost use Rattle.std.specs.Prelude.{◌≡◌, ◌+◌, ◌*◌, ◌≤◌, length};
ghost use Rattle.circuit.specs.Fields.{field};
ghost use Rattle.circuit.specs.FieldSteps.{Known, Inside as InsideWith, record_of as recordWith};
ghost use Rattle.circuit.specs.File.{width, max_outputs, max_gates, head_of, output_wire};
ghost use Rattle.circuit.specs.Steps.{record_of, Inside, output_place, record_place, and_one};

use crate::{Gate, Record, WIDTH};

// Field k of a file with fields of that many bytes.
pub fn field(s: &[u8], bytes: usize, k: usize) -> u32
    requires { Known bytes × (bytes * k + bytes ≤ length s.now) }
    ensures { result ≡ field bytes s.now k }
{
    if bytes == 4 {
        return bits::read_u32(s, 4 * k);
    }
    bits::read_u16(s, 2 * k) as u32
}

// The record of a slot of a file with that many outputs, with fields of that many bytes.
pub fn record_with(s: &[u8], bytes: usize, outputs: usize, slot: usize) -> Record
    requires { InsideWith bytes s.now outputs slot }
    ensures { result ≡ recordWith (field bytes s.now) slot }
{
    let at = 4 + outputs + 4 * (slot - 1);
    let kind = field(s, bytes, at);
    let a = field(s, bytes, at + 1) as usize;
    let b = field(s, bytes, at + 2) as usize;
    let next = field(s, bytes, at + 3) as usize;
    if kind == 1 {
        return Record {
            next,
            gate: Gate::Xor(a, b),
        };
    }
    if kind == 2 {
        return Record {
            next,
            gate: Gate::And(a, b),
        };
    }
    Record {
        next,
        gate: Gate::Inv(a),
    }
}

// The record of a slot of a file with that many outputs.
pub fn record(s: &[u8], outputs: usize, slot: usize) -> Record
    requires { Inside s.now outputs slot }
    ensures { result ≡ record_of s.now slot }
{
    record_with(s, WIDTH, outputs, slot)
}

// The head of a file: the first slot of its chain.
pub fn head(s: &[u8]) -> usize
    requires { width * 4 ≤ length s.now }
    ensures { result ≡ head_of s.now }
{
    field(s, WIDTH, 3) as usize
}

// The number of output wire j.
pub fn output_wire(s: &[u8], j: usize) -> usize
    requires { width * (4 + j) + width ≤ length s.now }
    ensures { result ≡ output_wire s.now j }
{
    field(s, WIDTH, 4 + j) as usize
}

// The place of output wire j in a file.
pub fn output_place(j: usize) -> usize
    requires { j ≤ max_outputs }
    ensures { result ≡ output_place j }
{
    WIDTH * (4 + j)
}

// The place of slot j + 1 in a file with that many outputs; for j = G this is the file's length.
pub fn record_place(outputs: usize, j: usize) -> usize
    requires { (outputs ≤ max_outputs) × (j ≤ max_gates) }
    ensures { result ≡ record_place outputs j }
{
    WIDTH * (4 + outputs + 4 * j)
}

// 1 for an AND gate, 0 for another.
pub fn and_one(gate: Gate) -> usize
    ensures { result ≡ and_one gate }
{
    match gate {
        Gate::Xor(_, _) => 0,
        Gate::And(_, _) => 1,
        Gate::Inv(_) => 0,
    }
}
