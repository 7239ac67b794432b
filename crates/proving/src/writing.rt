// Writing a proof.
ghost use Rattle.std.specs.Prelude.{◌≡◌, ◌++◌, suc, ◌*◌, ◌^◌, ◌<◌, length, drop};
ghost use Rattle.circuit.specs.File.{circuit_of};
ghost use Rattle.cover.specs.Masters.{height as «height-of»};
ghost use Rattle.instance.specs.Steps.{Lent};
ghost use Rattle.proof.specs.File.{header_bytes, header_of};
ghost use Rattle.proof.specs.Protocol.{statement_of};
ghost use Rattle.proof.specs.Prove.{proof_of};
ghost use Rattle.rounds.specs.Steps.{proof_from, Tested};

use circuit::Sizes;
use cover::{height, masters_tree};
use growing::grow;
use hashing::salt_in;
use proof::asking::draw_challenge;
use proof::nodes::row_count;
use proof::{Counts, HEADER_BYTES};
use rounds::{answer, first};

// The header: M, τ, n, zero, h*, salt.
pub(crate) fn head(m: u32, tau: u32, n: u32, hstar: &[u8], salt: &[u8], out: &mut [u8])
    requires { (m < 65536) × ((tau < 65536) × ((n < 256) × ((length hstar.now ≡ 32) × ((length salt.now ≡ 32) × (length out.old ≡ header_bytes))))) }
    ensures { out.new ≡ header_of m tau n hstar.now salt.now }
{
    bits::write_u16(out, 0, m as u16);
    bits::write_u16(out, 2, tau as u16);
    out[4] = n as u8;
    out[5] = 0;
    out[6..38].copy_from_slice(hstar);
    out[38..].copy_from_slice(salt);
}

// Writes a proof into the buffer, with the nodes of the masters' tree, and gives its length.
pub(crate) fn prove_from(
    s: &[u8],
    z: Sizes,
    k: Counts,
    witness: &[u8],
    y: &[u8],
    message: &[u8],
    nodes: &[u8],
    salt: [u8; 32],
    buffer: &mut [u8],
    memory: &mut [u8],
) -> usize
    requires { Lent s.now z k.parties k.height memory.old × (Tested s.now z k.instances k.chosen k.parties witness.now y.now message.now salt buffer.old × (length nodes.now ≡ 16 * 2 ^ suc («height-of» k.instances))) }
    ensures value { result ≡ length (proof_from (circuit_of s.now) k.instances k.chosen k.parties salt witness.now (statement_of salt k.instances k.chosen k.parties s.now y.now message.now) nodes.now) }
    ensures buffer_after { buffer.new ≡ proof_from (circuit_of s.now) k.instances k.chosen k.parties salt witness.now (statement_of salt k.instances k.chosen k.parties s.now y.now message.now) nodes.now ++ drop result buffer.old }
{
    let m = k.instances as usize;
    let kept = HEADER_BYTES + 32 * m;
    let hstar = first(
        s,
        z,
        k,
        salt,
        witness,
        nodes,
        &mut buffer[HEADER_BYTES..kept],
        memory,
    );
    head(
        k.instances,
        k.chosen,
        k.parties,
        &hstar,
        &salt,
        &mut buffer[..HEADER_BYTES],
    );
    let mut table = [0u8; 512];
    draw_challenge(s, k, &hstar, &salt, y, message, &mut table[..m]);
    answer(
        s,
        z,
        k,
        salt,
        &table[..m],
        witness,
        nodes,
        &mut buffer[HEADER_BYTES..],
        memory,
    )
}

// The same from the root.
pub(crate) fn prove_in(
    s: &[u8],
    z: Sizes,
    k: Counts,
    witness: &[u8],
    y: &[u8],
    message: &[u8],
    root: &[u8],
    salt: &[u8],
    buffer: &mut [u8],
    memory: &mut [u8],
) -> usize
    requires { Lent s.now z k.parties k.height memory.old × (Tested s.now z k.instances k.chosen k.parties witness.now y.now message.now salt.now buffer.old × (length root.now ≡ 16)) }
    ensures value { result ≡ length (proof_of (circuit_of s.now) k.instances k.chosen k.parties salt.now witness.now (statement_of salt.now k.instances k.chosen k.parties s.now y.now message.now) root.now) }
    ensures buffer_after { buffer.new ≡ proof_of (circuit_of s.now) k.instances k.chosen k.parties salt.now witness.now (statement_of salt.now k.instances k.chosen k.parties s.now y.now message.now) root.now ++ drop result buffer.old }
{
    let m = k.instances;
    let len = 16 * row_count(m);
    let own = salt_in(salt);
    let mut nodes = [0u8; 16384];
    grow(masters_tree(own), height(m), root, &mut nodes[..len]);
    prove_from(
        s,
        z,
        k,
        witness,
        y,
        message,
        &nodes[..len],
        own,
        buffer,
        memory,
    )
}
