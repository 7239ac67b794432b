// The operation prove.
#![tactic(auto)]

ghost use Rattle.std.specs.Prelude.{◌≡◌, ◌&&◌, ◌+◌, ◌*◌, ◌≤◌, eqb, leb, length};
ghost use Rattle.bits.specs.Bits.{oct};
ghost use Rattle.circuit.specs.File.{read_circuit, legal, circuit_of};
ghost use Rattle.circuit.specs.Operations.{leaving};
ghost use Rattle.masks.specs.Steps.{wire_count};
ghost use Rattle.mpc.specs.Steps.{Known, WitnessFits};
ghost use Rattle.choice.specs.Challenge.{max_instances};
ghost use Rattle.seeds.specs.Operations.{max_message};
ghost use Rattle.instance.specs.Steps.{Tree};
ghost use Rattle.proof.specs.File.{proof_room};
ghost use Rattle.proof.specs.Prove.{witnesses, prove_legal, prove_op};
ghost use Rattle.proving.specs.Answers.{outcome};

mod writing;

use bits::clear;
use circuit::Sizes;
use evaluation::evaluate;
use mpc::lending::work_bytes;
use mpc::tests::holds;
use proof::{Counts, HEADER_BYTES};
use reading::read;
use refusal::Refusal;
use seeds::{MAX_MESSAGE, counts};
use writing::prove_in;

// The bytes that the proof buffer must hold.
fn room(s: &[u8], z: Sizes, k: Counts) -> usize
    requires { Known s.now z × ((k.instances ≤ max_instances) × ((k.chosen ≤ k.instances) × Tree k.parties k.height)) }
    ensures { result ≡ proof_room (circuit_of s.now) k.instances k.chosen k.parties }
{
    let m = k.instances as usize;
    let tau = k.chosen as usize;
    let outputs = z.outputs;
    let ands = z.ands;
    let row = bits::oct(z.inputs) + bits::oct(ands + outputs);
    let chosen = 16 * (k.height as usize) + bits::oct(ands) + 32 + row;
    HEADER_BYTES + 48 * (m - tau) + tau * chosen
}

// Whether the lengths of what prove is lent are as stated.
fn lengths(
    s: &[u8],
    z: Sizes,
    k: Counts,
    witness: &[u8],
    y: &[u8],
    message: &[u8],
    root: &[u8],
    salt: &[u8],
    buffer: &[u8],
) -> bool
    requires { Known s.now z × ((k.instances ≤ max_instances) × ((k.chosen ≤ k.instances) × Tree k.parties k.height)) }
    ensures { result ≡ eqb (length witness.now) (oct z.inputs) && eqb (length y.now) (oct z.outputs) && leb (length message.now) max_message && eqb (length root.now) 16 && eqb (length salt.now) 32 && leb (proof_room (circuit_of s.now) k.instances k.chosen k.parties) (length buffer.now) }
{
    let need = room(s, z, k);
    holds(witness, z.inputs)
        && holds(y, z.outputs)
        && message.len() <= MAX_MESSAGE
        && root.len() == 16
        && salt.len() == 32
        && need <= buffer.len()
}

// Whether the witness gives y.
fn gives(s: &[u8], z: Sizes, witness: &[u8], y: &[u8]) -> bool
    requires { (read_circuit s.now ≡ legal (circuit_of s.now)) × (Known s.now z × WitnessFits z witness.now) }
    ensures { result ≡ witnesses (circuit_of s.now) witness.now y.now }
{
    let len = bits::oct(z.outputs);
    let mut out = [0u8; 32];
    let _ = evaluate(s, witness, &mut out[..len]);
    bits::same(&out[..len], y)
}

// Tests what is lent, and proves a legal circuit.
fn prove_lent(
    s: &[u8],
    z: Sizes,
    witness: &[u8],
    y: &[u8],
    message: &[u8],
    root: &[u8],
    salt: &[u8],
    m: u32,
    tau: u32,
    n: u32,
    buffer: &mut [u8],
    memory: &mut [u8],
) -> Result<usize, Refusal>
    requires { (read_circuit s.now ≡ legal (circuit_of s.now)) × (Known s.now z × (64 * wire_count z + 4096 ≤ length memory.old)) }
    ensures { outcome result buffer.new ≡ prove_legal s.now witness.now y.now message.now root.now salt.now m tau n buffer.old (circuit_of s.now) }
{
    if !counts(m, tau) {
        return Err(Refusal::Parameter);
    }
    let Some(h) = parties::height(n) else {
        return Err(Refusal::Parameter);
    };
    let k = Counts {
        instances: m,
        chosen: tau,
        parties: n,
        height: h,
    };
    if !lengths(s, z, k, witness, y, message, root, salt, buffer) {
        return Err(Refusal::BufferLength);
    }
    // Both tests are made, whatever the witness holds.
    if !(bits::unused_zero(witness, z.inputs) & bits::unused_zero(y, z.outputs)) {
        return Err(Refusal::UnusedBits);
    }
    if !gives(s, z, witness, y) {
        return Err(Refusal::Output);
    }
    Ok(prove_in(s, z, k, witness, y, message, root, salt, buffer, memory))
}

// Proves that the circuit gives y on the witness: writes a proof into the buffer and answers its length, or refuses and leaves the
// buffer as it was. The work buffer is left all zero, but for a refusal up to its test.
pub fn prove(
    s: &[u8],
    witness: &[u8],
    y: &[u8],
    message: &[u8],
    root: &[u8],
    salt: &[u8],
    m: u32,
    tau: u32,
    n: u32,
    buffer: &mut [u8],
    work: &mut [u8],
) -> Result<usize, Refusal>
    ensures { leaving (outcome result buffer.new) work.new ≡ prove_op s.now witness.now y.now message.now root.now salt.now m tau n buffer.old work.old }
{
    let z = read(s)?;
    if work.len() < work_bytes(z) {
        return Err(Refusal::BufferLength);
    }
    let ended = prove_lent(
        s, z, witness, y, message, root, salt, m, tau, n, buffer, work,
    );
    clear(work);
    ended
}
