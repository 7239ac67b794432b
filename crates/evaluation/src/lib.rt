// Evaluating a circuit. No branch and no index depends on the witness.
#![tactic(auto)]

ghost use Rattle.std.specs.Prelude.{◌≡◌, ◌*◌, ◌≤◌, ◌<◌, length, get_or, false};
ghost use Rattle.bits.specs.Bits.{bit_val, bit_at, oct, pack};
ghost use Rattle.circuit.specs.Circuit.{evaluate};
ghost use Rattle.circuit.specs.File.{circuit_of};
ghost use Rattle.circuit.specs.Operations.{evaluate_op, evaluate_legal};
ghost use Rattle.circuit.specs.Answers.{outcome};
ghost use Rattle.circuit.specs.Steps.{gate_bit, loaded, walked, out_bits, out_byte, within, Ready, Ended, Legal, Lent};

use circuit::records::{head, output_wire, record};
use circuit::{Gate, WIRE_BYTES};
use reading::read;
use refusal::Refusal;

// Gives the input wires their bits.
fn load(witness: &[u8], inputs: usize, values: &mut [u8])
    requires { (inputs ≤ 8 * length values.old) × (inputs ≤ 8 * length witness.now) }
    ensures { values.new ≡ loaded witness.now inputs values.old }
{
    for k in 0..inputs {
        let b = bits::bit(witness, k);
        bits::put_bit(values, k, b);
    }
}

// The bit that a gate gives.
fn gate_bit(values: &[u8], gate: Gate) -> u8
    requires { within (8 * length values.now) gate }
    ensures { result ≡ bit_val (gate_bit gate (bit_at values.now)) }
{
    match gate {
        Gate::Xor(a, b) => bits::bit(values, a) ^ bits::bit(values, b),
        Gate::And(a, b) => bits::bit(values, a) & bits::bit(values, b),
        Gate::Inv(a) => 1 ^ bits::bit(values, a),
    }
}

// Runs the gates in chain order.
fn walk(s: &[u8], inputs: usize, outputs: usize, gates: usize, head: usize, values: &mut [u8])
    requires { Ready s.now inputs outputs gates head values.old }
    ensures { values.new ≡ walked s.now gates head values.old }
{
    let mut slot = head;
    for _ in 0..gates {
        let r = record(s, outputs, slot);
        let x = gate_bit(values, r.gate);
        bits::put_bit(values, inputs + (slot - 1), x);
        slot = r.next;
    }
}

// Output bit j; 0 beyond the last.
fn output_bit(s: &[u8], inputs: usize, outputs: usize, gates: usize, values: &[u8], j: usize) -> u8
    requires { Ended s.now inputs outputs gates values.now }
    ensures { result ≡ bit_val (get_or (out_bits s.now values.now outputs) j false) }
{
    if j < outputs {
        let wire = output_wire(s, j);
        return bits::bit(values, wire);
    }
    0
}

// Byte j of the packed output bits.
fn output_byte(s: &[u8], inputs: usize, outputs: usize, gates: usize, values: &[u8], j: usize) -> u8
    requires { (j < 32) × Ended s.now inputs outputs gates values.now }
    ensures { result ≡ out_byte s.now values.now outputs j }
{
    let mut sum: usize = 0;
    let mut weight: usize = 1;
    for t in 0..8 {
        let b = output_bit(s, inputs, outputs, gates, values, 8 * j + t) as usize;
        sum += b * weight;
        weight *= 2;
    }
    (sum % 256) as u8
}

// Packs the output bits into y.
fn store(s: &[u8], inputs: usize, outputs: usize, gates: usize, values: &[u8], y: &mut [u8])
    requires { (length y.old ≡ oct outputs) × Ended s.now inputs outputs gates values.now }
    ensures { y.new ≡ pack (out_bits s.now values.now outputs) }
{
    for (j, b) in y.iter_mut().enumerate() {
        *b = output_byte(s, inputs, outputs, gates, values, j);
    }
}

// Evaluates a legal circuit on a good witness.
fn evaluate_legal(
    s: &[u8],
    inputs: usize,
    outputs: usize,
    gates: usize,
    witness: &[u8],
    y: &mut [u8],
)
    requires { Legal s.now inputs outputs gates × Lent inputs outputs witness.now y.old }
    ensures { y.new ≡ pack (evaluate (circuit_of s.now) (bit_at witness.now)) }
{
    let first = head(s);
    let mut values = [0u8; WIRE_BYTES];
    load(witness, inputs, &mut values);
    walk(s, inputs, outputs, gates, first, &mut values);
    store(s, inputs, outputs, gates, &values, y);
}

// Tests what is lent, and evaluates a legal circuit.
fn evaluate_lent(
    s: &[u8],
    inputs: usize,
    outputs: usize,
    gates: usize,
    witness: &[u8],
    y: &mut [u8],
) -> Result<(), Refusal>
    requires { Legal s.now inputs outputs gates }
    ensures { outcome result y.new ≡ evaluate_legal witness.now y.old (circuit_of s.now) }
{
    if witness.len() != bits::oct(inputs) {
        return Err(Refusal::BufferLength);
    }
    if y.len() != bits::oct(outputs) {
        return Err(Refusal::BufferLength);
    }
    if !bits::unused_zero(witness, inputs) {
        return Err(Refusal::UnusedBits);
    }
    evaluate_legal(s, inputs, outputs, gates, witness, y);
    Ok(())
}

// Evaluates a circuit on a witness and fills y, or refuses and leaves y as it was.
pub fn evaluate(s: &[u8], witness: &[u8], y: &mut [u8]) -> Result<(), Refusal>
    ensures { outcome result y.new ≡ evaluate_op s.now witness.now y.old }
{
    let z = read(s)?;
    evaluate_lent(s, z.inputs, z.outputs, z.gates, witness, y)
}
