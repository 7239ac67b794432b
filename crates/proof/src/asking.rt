// What a challenge asks of each instance, and the bytes of the proof that answer it.
ghost use Rattle.std.specs.Prelude.{◌≡◌, ◌*◌, ◌≤◌, length, get_or, replicate};
ghost use Rattle.circuit.specs.File.{circuit_of};
ghost use Rattle.mpc.specs.Steps.{Known};
ghost use Rattle.cover.specs.Masters.{cover_bytes};
ghost use Rattle.instance.specs.Stretch.{stretch_bytes};
ghost use Rattle.instance.specs.Steps.{Tree};
ghost use Rattle.choice.specs.Challenge.{max_instances, challenge_of};
ghost use Rattle.proof.specs.Protocol.{statement_of};
ghost use Rattle.proof.specs.File.{hides, proof_bytes};
ghost use Rattle.proof.specs.Steps.{ask_of, table_of, asks_in, Asking, Drawable};

use crate::{Counts, HEADER_BYTES};
use circuit::Sizes;
use instance::checking::sent_bytes;
use keccak::sha3_256;
use seeds::challenge;

// Draws the bytes of the challenge from h*, bound to the salt and the whole statement: m, tau and n, the circuit file s, y and the message.
fn draw_choices(
    s: &[u8],
    m: u32,
    tau: u32,
    n: u32,
    hstar: &[u8],
    salt: &[u8],
    y: &[u8],
    message: &[u8],
    choices: &mut [u8],
)
    requires { Drawable m tau n hstar.now salt.now y.now message.now × (length choices.old ≡ 3 * tau) }
    ensures { choices.new ≡ challenge_of m tau n hstar.now (statement_of salt.now m tau n s.now y.now message.now) }
{
    let digest = sha3_256(s);
    let _ = challenge(m, tau, n, hstar, salt, &digest, y, message, choices);
}

// Enters the bytes of a challenge into the table: for each instance its hidden party, or n where it is not chosen.
fn enter(choices: &[u8], n: u8, table: &mut [u8])
    ensures { table.new ≡ table_of (length table.old) n choices.now }
{
    table.fill(n);
    for k in (0..choices.len() / 3).rev() {
        let at = 3 * k;
        let j = bits::read_u16(choices, at) as usize;
        if j < table.len() {
            table[j] = choices[at + 2];
        }
    }
}

// Draws the challenge from h*, into the table of what it asks of each instance.
pub fn draw_challenge(
    s: &[u8],
    k: Counts,
    hstar: &[u8],
    salt: &[u8],
    y: &[u8],
    message: &[u8],
    table: &mut [u8],
)
    requires { Drawable k.instances k.chosen k.parties hstar.now salt.now y.now message.now × (length table.old ≡ k.instances) }
    ensures { table.new ≡ table_of k.instances k.parties (challenge_of k.instances k.chosen k.parties hstar.now (statement_of salt.now k.instances k.chosen k.parties s.now y.now message.now)) }
{
    let m = k.instances;
    let tau = k.chosen;
    let n = k.parties;
    let c = 3 * (tau as usize);
    let mut choices = [0u8; 1533];
    draw_choices(s, m, tau, n, hstar, salt, y, message, &mut choices[..c]);
    enter(&choices[..c], n as u8, table);
}

// The hidden party of instance j by the table; n where it is not chosen.
pub fn asked(table: &[u8], n: u32, j: u32) -> u32
    ensures { result ≡ get_or table.now j n }
{
    match table.get(j as usize) {
        Some(p) => u32::from(*p),
        None => n,
    }
}

// The bytes of the stretch of an instance of which p is asked.
pub fn stretch_bytes(s: &[u8], z: Sizes, n: u32, h: u32, p: u32) -> usize
    requires { Known s.now z × (Tree n h × (p ≤ n)) }
    ensures { result ≡ stretch_bytes (circuit_of s.now) n (ask_of n p) }
{
    if p == n {
        return 32;
    }
    let outputs = z.outputs;
    let ands = z.ands;
    let row = bits::oct(z.inputs) + bits::oct(ands + outputs);
    16 * (h as usize) + sent_bytes(ands, n, p) + 32 + row
}

// The bytes of a proof, of which `opened` are opened nodes.
pub fn proof_bytes(s: &[u8], z: Sizes, k: Counts, table: &[u8], opened: usize) -> usize
    requires { Known s.now z × (Tree k.parties k.height × ((k.instances ≤ max_instances) × (Asking k.parties table.now × (opened ≡ cover_bytes k.instances (hides (asks_in k.parties table.now)))))) }
    ensures { result ≡ proof_bytes (circuit_of s.now) k.instances k.parties (asks_in k.parties table.now) }
{
    let m = k.instances;
    let n = k.parties;
    let h = k.height;
    let mut at = HEADER_BYTES + opened;
    for j in 0..m {
        let p = asked(table, n, j);
        at += stretch_bytes(s, z, n, h, p);
    }
    at
}
