// The hashes of document 01: SHAKE128 of a tagged and salted input, and the digests of a transcript. Every input's tag is taken in as one
// byte.
// A caller starts a digest, lends its parts to `absorb` at the rate of SHA3-256, and finishes it.
#![tactic(auto)]

ghost use Rattle.std.specs.Prelude.{◌≡◌, [], ◌∷◌, ◌++◌, ◌<◌, length};
ghost use Rattle.keccak.specs.Steps.{empty, absorbs, closed};
ghost use Rattle.keccak.specs.Sponge.{shake128 as «shake128-of», sha3_256 as «sha3-of»};
ghost use Rattle.bits.specs.Bytes.{le_bytes};
ghost use Rattle.hashing.specs.Inputs.{commitments_input, online_input, all_commitments_input, all_online_input};
ghost use Rattle.hashing.specs.Digest.{transcript_of, taken, given};

use keccak::sponge::{Sponge, absorb_in};
use keccak::{SHA3_256_RATE, SHA3_FIRST, SHAKE_FIRST, SHAKE128_RATE};

// An instance of a proof, as its hashes name it: the salt of the proof, and the instance's number j.
#[derive(Clone, Copy)]
pub struct Context {
    pub salt: [u8; 32],
    pub number: u32,
}

// A lent salt as a value.
pub fn salt_in(bytes: &[u8]) -> [u8; 32]
    requires { length bytes.now ≡ 32 }
    ensures { result ≡ bytes.now }
{
    let mut salt = [0u8; 32];
    salt.copy_from_slice(bytes);
    salt
}

// The sponge of SHAKE128 that has taken in the tag, the salt, the head and the body, closed.
pub fn close128(tag: u8, salt: &[u8], head: &[u8], body: &[u8]) -> Sponge
    ensures { result ≡ closed 168 0x1f (absorbs 168 empty (tag ∷ (salt.now ++ head.now ++ body.now))) }
{
    let s = Sponge::new().absorb_byte(SHAKE128_RATE, tag);
    let mut l = s.lanes;
    let a = absorb_in(&mut l, SHAKE128_RATE, s.fill, salt);
    let b = absorb_in(&mut l, SHAKE128_RATE, a, head);
    let c = absorb_in(&mut l, SHAKE128_RATE, b, body);
    let t = Sponge { lanes: l, fill: c };
    t.close(SHAKE128_RATE, SHAKE_FIRST)
}

// SHAKE128 of the tag, the salt, the head and the body, as long as the lent output.
pub fn shake128(tag: u8, salt: &[u8], head: &[u8], body: &[u8], out: &mut [u8])
    ensures { out.new ≡ «shake128-of» (tag ∷ (salt.now ++ head.now ++ body.now)) (length out.old) }
{
    let s = close128(tag, salt, head, body);
    let _ = s.squeeze(SHAKE128_RATE, out);
}

// SHA3-256 of the tag 1, the salt and four parts: a commitment.
pub fn commit(salt: &[u8], head: &[u8], seed: &[u8], corrections: &[u8], r: &[u8]) -> [u8; 32]
    ensures { result ≡ «sha3-of» (1 ∷ (salt.now ++ head.now ++ seed.now ++ corrections.now ++ r.now)) }
{
    let s = Sponge::new().absorb_byte(SHA3_256_RATE, 1);
    let mut l = s.lanes;
    let a = absorb_in(&mut l, SHA3_256_RATE, s.fill, salt);
    let b = absorb_in(&mut l, SHA3_256_RATE, a, head);
    let c = absorb_in(&mut l, SHA3_256_RATE, b, seed);
    let d = absorb_in(&mut l, SHA3_256_RATE, c, corrections);
    let e = absorb_in(&mut l, SHA3_256_RATE, d, r);
    finish(Sponge { lanes: l, fill: e })
}

// Starts a digest of instance j under a tag.
fn start(tag: u8, j: u32) -> Sponge
    ensures { result ≡ taken (tag ∷ le_bytes 2 j) }
{
    let head = [(j % 256) as u8, (j / 256 % 256) as u8];
    Sponge::new()
        .absorb_byte(SHA3_256_RATE, tag)
        .absorb(SHA3_256_RATE, &head)
}

// Starts h_j, which takes in all commitments of instance j.
pub fn start_commitments(j: u32) -> Sponge
    ensures { result ≡ taken (commitments_input j []) }
{
    start(7, j)
}

// Starts h'_j, which takes in the masked inputs and all broadcast rows of instance j.
pub fn start_online(j: u32) -> Sponge
    ensures { result ≡ taken (online_input j [] []) }
{
    start(8, j)
}

// Starts h, which takes in all h_j.
pub fn start_all_commitments() -> Sponge
    ensures { result ≡ taken (all_commitments_input []) }
{
    Sponge::new().absorb_byte(SHA3_256_RATE, 9)
}

// Starts h', which takes in all h'_j.
pub fn start_all_online() -> Sponge
    ensures { result ≡ taken (all_online_input []) }
{
    Sponge::new().absorb_byte(SHA3_256_RATE, 10)
}

// The digest of what the sponge has taken in.
pub fn finish(s: Sponge) -> [u8; 32]
    requires { s.fill < 136 }
    ensures { result ≡ given s }
{
    let mut out = [0u8; 32];
    let _ = s
        .pad(SHA3_256_RATE, SHA3_FIRST)
        .squeeze(SHA3_256_RATE, &mut out);
    out
}

// h*, from h and h'.
pub fn transcript(h: &[u8], online: &[u8]) -> [u8; 32]
    ensures { result ≡ transcript_of h.now online.now }
{
    let s = Sponge::new()
        .absorb_byte(SHA3_256_RATE, 11)
        .absorb(SHA3_256_RATE, h)
        .absorb(SHA3_256_RATE, online);
    finish(s)
}
