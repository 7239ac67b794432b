// The operation check.
#![tactic(auto)]

ghost use Rattle.std.specs.Prelude.{◌≡◌, ◌+◌, ◌*◌, ◌≤◌, length};
ghost use Rattle.circuit.specs.File.{read_circuit, legal, circuit_of};
ghost use Rattle.circuit.specs.Operations.{leaving};
ghost use Rattle.masks.specs.Steps.{wire_count};
ghost use Rattle.mpc.specs.Steps.{Known};
ghost use Rattle.proof.specs.Check.{check_legal, check_op};
ghost use Rattle.proof.specs.Steps.{asks_in};
ghost use Rattle.checking.specs.Answers.{outcome};
ghost use Rattle.proof_tests.specs.Steps.{judged, Tested};

use bits::clear;
use circuit::Sizes;
use cover::height;
use growing::regrow;
use mpc::lending::work_bytes;
use proof::HEADER_BYTES;
use proof::nodes::row_count;
use proof_tests::{Shape, test_lent};
use reading::read;
use refusal::Refusal;
use verifying::{proof_tree, recompute};

// Checks the instances of a proof that passes all tests before them: the masters' tree is grown again from its opened nodes, every
// instance is worked, and their digests are compared with the header's h*.
fn verify(
    s: &[u8],
    f: Shape,
    table: &[u8],
    marks: &[u8],
    y: &[u8],
    proof: &[u8],
    memory: &mut [u8],
) -> Result<(), Refusal>
    requires { Tested s.now f proof.now table.now marks.now × (64 * wire_count f.sizes + 4096 ≤ length memory.old) }
    ensures { outcome result ≡ judged (circuit_of s.now) y.now proof.now f.counts.instances f.counts.parties (asks_in f.counts.parties table.now) }
{
    let z = f.sizes;
    let k = f.counts;
    let opened = f.opened;
    let m = k.instances;
    let first = HEADER_BYTES + opened;
    let mut nodes = [0u8; 16384];
    let e = 16 * row_count(m);
    regrow(
        proof_tree(proof),
        height(m),
        marks,
        &proof[HEADER_BYTES..first],
        &mut nodes[..e],
    );
    let v = recompute(s, z, k, table, opened, &nodes[..e], y, proof, memory);
    if !v.agrees {
        return Err(Refusal::Output);
    }
    if !bits::same(&v.hstar, &proof[6..38]) {
        return Err(Refusal::Digest);
    }
    Ok(())
}

// Checks a proof of a legal circuit, with places for what the challenge asks and for the marks of the masters' tree.
fn check_lent(
    s: &[u8],
    z: Sizes,
    y: &[u8],
    message: &[u8],
    proof: &[u8],
    memory: &mut [u8],
) -> Result<(), Refusal>
    requires { (read_circuit s.now ≡ legal (circuit_of s.now)) × (Known s.now z × (64 * wire_count z + 4096 ≤ length memory.old)) }
    ensures { outcome result ≡ check_legal s.now y.now message.now proof.now (circuit_of s.now) }
{
    let mut table = [0u8; 512];
    let mut marks = [0u8; 1024];
    let f = test_lent(s, z, y, message, proof, &mut table, &mut marks)?;
    let m = f.counts.instances;
    let c = m as usize;
    let r = row_count(m);
    verify(s, f, &table[..c], &marks[..r], y, proof, memory)
}

// Checks a proof that the circuit gives y on some witness, under the message. The work buffer is left all zero, but for a refusal up to
// its test.
pub fn check(
    s: &[u8],
    y: &[u8],
    message: &[u8],
    proof: &[u8],
    work: &mut [u8],
) -> Result<(), Refusal>
    ensures { leaving (outcome result) work.new ≡ check_op s.now y.now message.now proof.now work.old }
{
    let z = read(s)?;
    if work.len() < work_bytes(z) {
        return Err(Refusal::BufferLength);
    }
    let ended = check_lent(s, z, y, message, proof, work);
    clear(work);
    ended
}
