// Writing the circuit file of a text whose lines are all good.
ghost use Rattle.std.specs.Prelude.{◌≡◌, ◌+◌, ◌-◌, ◌*◌, ◌≤◌, length, drop};
ghost use mathlib.Core.List.{◌∷◌, flatten};
ghost use Rattle.std.proofs.Math.Option.{none};
ghost use Rattle.std.proofs.lemmas.List.Edits.{sets};
ghost use Rattle.bits.specs.Bits.{tabulate};
ghost use Rattle.bits.specs.Bytes.{le_bytes};
ghost use Rattle.bristol_text.specs.Text.{lines};
ghost use Rattle.circuit.specs.File.{width};
ghost use Rattle.circuit.specs.Steps.{output_place, record_place};
ghost use Rattle.building.specs.Steps.{four_bytes};
ghost use Rattle.bristol_lines.specs.Rules.{writes};
ghost use Rattle.bristol_lines.specs.Steps.{record_bytes, line_of, gates_from, gates_at, refusal_of, Output, Room, Started, stored, filed};

use bristol_lines::gates::{next_gate, output_wire};
use bristol_lines::{Gate, Sizes};
use bristol_text::Cursor;
use building::write_four;
use circuit::records::output_place;

// Writes four fields, the first at field k.
fn write_fields(out: &mut [u8], k: usize, a: usize, b: usize, c: usize, d: usize)
    requires { width * (k + 4) ≤ length out.old }
    ensures { out.new ≡ sets out.old (width * k) (four_bytes a b c d) }
{
    write_four(
        out,
        k,
        (a % 4294967296) as u32,
        (b % 4294967296) as u32,
        (c % 4294967296) as u32,
        (d % 4294967296) as u32,
    );
}

// Writes the numbers of the output wires, which are the last wires.
fn write_outputs(out: &mut [u8], z: Sizes)
    requires { Room z out.old }
    ensures { out.new ≡ sets out.old (output_place 0) (flatten (tabulate z.outputs (λ k. le_bytes width (z.inputs + z.gates - z.outputs + k)))) }
{
    let first = z.inputs + z.gates - z.outputs;
    for j in 0..z.outputs {
        bits::write_u32(out, output_place(j), ((first + j) % 4294967296) as u32);
    }
}

// Writes the record of a gate, whose link is `next`.
fn write_record(out: &mut [u8], z: Sizes, g: Gate, next: usize)
    requires { Room z out.old × Output z (writes (line_of g)) }
    ensures { out.new ≡ sets out.old (record_place z.outputs (writes (line_of g) - z.inputs)) (record_bytes (line_of g) next) }
{
    let k = 4 + z.outputs + 4 * (output_wire(g) - z.inputs);
    match g {
        Gate::Xor(a, b, _) => write_fields(out, k, 1, a, b, next),
        Gate::And(a, b, _) => write_fields(out, k, 2, a, b, next),
        Gate::Inv(a, _) => write_fields(out, k, 3, a, 0, next),
    }
}

// Writes the records of a gate and of those on the lines after it. Each links to the next.
fn write_records(s: &[u8], z: Sizes, c: Cursor, first: Gate, out: &mut [u8])
    requires { Started s.now z c.at (writes (line_of first)) out.old }
    ensures { out.new ≡ stored z.inputs z.outputs (line_of first ∷ gates_from (lines (drop c.at s.now))) out.old }
{
    let mut g = first;
    let mut at = c.at;
    for _ in 1..z.gates {
        let (gate, next) = next_gate(s, Cursor { at });
        let h = gate.unwrap();
        let slot = output_wire(h) - z.inputs + 1;
        write_record(out, z, g, slot);
        g = h;
        at = next.at;
    }
    write_record(out, z, g, 0);
}

// Writes the circuit file.
pub(crate) fn write_file(s: &[u8], z: Sizes, c: Cursor, out: &mut [u8])
    requires { Room z out.old × (refusal_of (gates_at s.now z c.at) ≡ none) }
    ensures { out.new ≡ filed (gates_at s.now z c.at) out.old }
{
    if z.gates == 0 {
        write_fields(out, 0, z.inputs, z.outputs, z.gates, 0);
        write_outputs(out, z);
        return;
    }
    let (gate, next) = next_gate(s, c);
    let g = gate.unwrap();
    let slot = output_wire(g) - z.inputs + 1;
    write_fields(out, 0, z.inputs, z.outputs, z.gates, slot);
    write_outputs(out, z);
    write_records(s, z, next, g, out);
}
