// The tests of a proof that need no run of an instance: all that check refuses with, but for 10 and 13.
#![tactic(auto)]

ghost use Rattle.std.specs.Prelude.{◌≡◌, suc, ◌^◌, length, []};
ghost use Rattle.refusal.specs.Outcome.{done};
ghost use Rattle.circuit.specs.File.{read_circuit, legal, circuit_of};
ghost use Rattle.mpc.specs.Steps.{Known};
ghost use Rattle.cover.specs.Masters.{height as «height-of»};
ghost use Rattle.instance.specs.Steps.{Tree};
ghost use Rattle.proof.specs.Protocol.{statement_of, challenged};
ghost use Rattle.proof.specs.File.{header_hstar, header_salt};
ghost use Rattle.proof_tests.specs.Steps.{header_counts, Headed, tested, legal_tests, entered, Took, in_table, in_marks};

mod unused_bits;

use circuit::Sizes;
use mpc::tests::holds;
use proof::asking::{draw_challenge, proof_bytes};
use proof::nodes::{mark_nodes, row_count};
use proof::{Counts, HEADER_BYTES};
use refusal::Refusal;
use seeds::{MAX_MESSAGE, counts};
use unused_bits::all_unused;

// The numbers that say where each part of a proof lies: the circuit's sizes, the header's counts, and the bytes of the opened nodes.
#[derive(Clone, Copy)]
pub struct Shape {
    pub sizes: Sizes,
    pub counts: Counts,
    pub opened: usize,
}

// The counts of a proof's header, with the height of the tree of its parties; None where the header is not within the limits.
fn header_counts(proof: &[u8]) -> Option<Counts>
    ensures { result ≡ header_counts proof.now }
{
    if proof.len() < HEADER_BYTES {
        return None;
    }
    let m = bits::read_u16(proof, 0) as u32;
    let tau = bits::read_u16(proof, 2) as u32;
    let n = proof[4] as u32;
    let zero = proof[5];
    let h = parties::height(n)?;
    if !counts(m, tau) || zero != 0 {
        return None;
    }
    Some(Counts {
        instances: m,
        chosen: tau,
        parties: n,
        height: h,
    })
}

// Tests a proof with a good header. The challenge, drawn from the header's h* and salt, goes into the table, and from it come the marks of the
// masters' tree.
fn test_proof(
    s: &[u8],
    z: Sizes,
    k: Counts,
    y: &[u8],
    message: &[u8],
    proof: &[u8],
    table: &mut [u8],
    marks: &mut [u8],
) -> Result<Shape, Refusal>
    requires { Known s.now z × (Tree k.parties k.height × (Headed k.instances k.chosen k.parties y.now message.now proof.now × ((length table.old ≡ k.instances) × (length marks.old ≡ 2 ^ suc («height-of» k.instances))))) }
    ensures result_value { entered result ≡ tested (circuit_of s.now) proof.now k.instances k.parties (challenged k.instances k.chosen k.parties (header_hstar proof.now) (statement_of (header_salt proof.now) k.instances k.chosen k.parties s.now y.now message.now)) (done []) }
    ensures took { Took result s.now z y.now message.now proof.now (λ _. table.new) (λ _. marks.new) }
{
    draw_challenge(
        s,
        k,
        &proof[6..38],
        &proof[38..HEADER_BYTES],
        y,
        message,
        table,
    );
    let opened = mark_nodes(k, table, marks);
    if proof.len() != proof_bytes(s, z, k, table, opened) {
        return Err(Refusal::ProofLength);
    }
    if !all_unused(s, z, k, table, opened, proof) {
        return Err(Refusal::UnusedBits);
    }
    Ok(Shape {
        sizes: z,
        counts: k,
        opened,
    })
}

// Tests y, the message, the header and the proof of a legal circuit. A table for 512 instances and marks for 1,024 nodes are lent; where
// the proof passes, the first of them hold what its instances ask, and the marks of its masters' tree.
pub fn test_lent(
    s: &[u8],
    z: Sizes,
    y: &[u8],
    message: &[u8],
    proof: &[u8],
    table: &mut [u8],
    marks: &mut [u8],
) -> Result<Shape, Refusal>
    requires { (read_circuit s.now ≡ legal (circuit_of s.now)) × (Known s.now z × ((length table.old ≡ 512) × (length marks.old ≡ 1024))) }
    ensures result_value { entered result ≡ legal_tests s.now y.now message.now proof.now (circuit_of s.now) (done []) }
    ensures took { Took result s.now z y.now message.now proof.now (in_table table.new) (in_marks marks.new) }
{
    if !holds(y, z.outputs) || message.len() > MAX_MESSAGE {
        return Err(Refusal::BufferLength);
    }
    if !bits::unused_zero(y, z.outputs) {
        return Err(Refusal::UnusedBits);
    }
    let Some(k) = header_counts(proof) else {
        return Err(Refusal::Header);
    };
    let c = k.instances as usize;
    let r = row_count(k.instances);
    test_proof(s, z, k, y, message, proof, &mut table[..c], &mut marks[..r])
}
