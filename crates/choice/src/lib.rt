// The challenge: its stream, the instances that it chooses, and their hidden parties.
// The stream is given out as a whole. The chosen instances are kept ascending, so that a draw goes along them and not along all instances.
#![tactic(auto)]

ghost use Rattle.std.specs.Prelude.{◌≡◌, Bool, List, [], ◌∷◌, ◌++◌, ◌+◌, ◌*◌, ◌≤◌, ◌<◌, length, take};
ghost use Rattle.std.proofs.lemmas.List.Edits.{sets};
ghost use Rattle.bits.specs.Bytes.{le_bytes};
ghost use Rattle.keccak.specs.Steps.{absorbs, squeezes};
ghost use Rattle.hashing.specs.Inputs.{bound_of, challenge_input};
ghost use Rattle.choice.specs.Challenge.{max_instances, choose as «choose-at», chosen_from, parties_of, instances, hidden_parties, beside, challenge_of};
ghost use Rattle.choice.specs.Steps.{ready, Room};

use keccak::sponge::Sponge;
use keccak::{SHAKE_FIRST, SHAKE256_RATE};

// The limit on the instances of a proof.
pub const MAX_INSTANCES: usize = 512;

// The bytes of the longest stream, 9 for each of 511 chosen instances.
const MAX_STREAM: usize = 4599;

// Takes in what the challenge is bound to: the salt, M, τ and n, the digest of the circuit file, y, and the message behind its length.
fn absorb_bound(
    sponge: Sponge,
    salt: &[u8],
    m: usize,
    tau: usize,
    n: u8,
    digest: &[u8],
    y: &[u8],
    message: &[u8],
) -> Sponge
    requires { sponge.fill < 136 }
    ensures { result ≡ absorbs 136 sponge (bound_of salt.now m tau n digest.now y.now message.now) }
{
    let counts = [
        (m % 256) as u8,
        (m / 256 % 256) as u8,
        (tau % 256) as u8,
        (tau / 256 % 256) as u8,
        n,
    ];
    let k = message.len();
    let size = [(k % 256) as u8, (k / 256 % 256) as u8];
    sponge
        .absorb(SHAKE256_RATE, salt)
        .absorb(SHAKE256_RATE, &counts)
        .absorb(SHAKE256_RATE, digest)
        .absorb(SHAKE256_RATE, y)
        .absorb(SHAKE256_RATE, &size)
        .absorb(SHAKE256_RATE, message)
}

// The sponge that is ready to give out the stream.
fn stream(
    m: usize,
    tau: usize,
    n: u8,
    hstar: &[u8],
    salt: &[u8],
    digest: &[u8],
    y: &[u8],
    message: &[u8],
) -> Sponge
    ensures { result ≡ ready (challenge_input hstar.now (bound_of salt.now m tau n digest.now y.now message.now)) }
{
    let s = Sponge::new()
        .absorb_byte(SHAKE256_RATE, 6)
        .absorb(SHAKE256_RATE, hstar);
    absorb_bound(s, salt, m, tau, n, digest, y, message).pad(SHAKE256_RATE, SHAKE_FIRST)
}

// Of the first t instances, which are ascending, those above the place of the new one go up by one. Tells how many stay.
fn make_room(chosen: &mut [u16], t: usize, x: usize) -> usize
    requires { (t < length chosen.old) × (x + t < 65536) }
    ensures { Room t x chosen.old result chosen.new }
{
    for k in (0..t).rev() {
        let c = chosen[k];
        if (c as usize) <= x + k {
            return k + 1;
        }
        chosen[k + 1] = c;
    }
    0
}

// Chooses the instance at place x among those not yet chosen, ascending. The first t are the chosen ones, ascending.
fn choose(chosen: &mut [u16], t: usize, x: usize)
    requires { (t < length chosen.old) × (x + t < 65536) }
    ensures { (flags : List Bool) → chosen_from 0 flags ≡ take t chosen.old → x + t < length flags → take (t + 1) chosen.new ≡ chosen_from 0 («choose-at» x flags) }
{
    let k = make_room(chosen, t, x);
    chosen[k] = (x + k) as u16;
}

// Draws as many instances as the lent slice has, each by 8 bytes of the stream.
fn draw(m: usize, stream: &[u8], chosen: &mut [u16])
    requires { (m ≤ max_instances) × ((length chosen.old ≤ m) × (8 * length chosen.old ≤ length stream.now)) }
    ensures { chosen.new ≡ instances m (length chosen.old) stream.now }
{
    for t in 0..chosen.len() {
        let x = bits::read_u64(stream, 8 * t) % ((m - t) as u64);
        choose(chosen, t, x as usize);
    }
}

// Writes an instance as u16 and its hidden party as u8.
fn write_choice(out: &mut [u8], at: usize, i: u16, p: u8)
    requires { at + 3 ≤ length out.old }
    ensures { out.new ≡ sets out.old at (le_bytes 2 i ++ (p ∷ [])) }
{
    bits::write_u16(out, at, i);
    out[at + 2] = p;
}

// Writes the chosen instances, each with its hidden party by its byte.
fn write_chosen(chosen: &[u16], n: u8, bytes: &[u8], out: &mut [u8])
    requires { (0 < n) × ((length bytes.now ≡ length chosen.now) × (length out.old ≡ 3 * length chosen.now)) }
    ensures { out.new ≡ beside chosen.now (parties_of n bytes.now) }
{
    for (k, i) in chosen.iter().enumerate() {
        write_choice(out, 3 * k, *i, bytes[k] % n);
    }
}

// The chosen instances with their hidden parties, from the sponge that gives out the stream. Lent are the stream's bytes, and a place for each instance.
fn choose_with(
    m: usize,
    n: u8,
    sponge: Sponge,
    bytes: &mut [u8],
    chosen: &mut [u16],
    out: &mut [u8],
)
    requires { (sponge.fill ≤ 136) × ((m ≤ max_instances) × ((length chosen.old ≤ m) × ((0 < n) × ((length bytes.old ≡ 9 * length chosen.old) × (length out.old ≡ 3 * length chosen.old))))) }
    ensures { out.new ≡ beside (instances m (length chosen.old) (squeezes 136 (length bytes.old) sponge)) (hidden_parties (length chosen.old) n (squeezes 136 (length bytes.old) sponge)) }
{
    let first = 8 * chosen.len();
    let _ = sponge.squeeze(SHAKE256_RATE, bytes);
    draw(m, bytes, chosen);
    write_chosen(chosen, n, &bytes[first..], out);
}

// The challenge of tau among m instances and n parties, bound to the salt, the digest of the circuit file, y and the message.
pub fn derive(
    m: usize,
    tau: usize,
    n: u8,
    hstar: &[u8],
    salt: &[u8],
    digest: &[u8],
    y: &[u8],
    message: &[u8],
    out: &mut [u8],
)
    requires { (m ≤ max_instances) × ((tau < m) × ((0 < n) × (length out.old ≡ 3 * tau))) }
    ensures { out.new ≡ challenge_of m tau n hstar.now (bound_of salt.now m tau n digest.now y.now message.now) }
{
    let s = stream(m, tau, n, hstar, salt, digest, y, message);
    let mut bytes = [0u8; MAX_STREAM];
    let mut chosen = [0u16; MAX_INSTANCES];
    let k = 9 * tau;
    choose_with(m, n, s, &mut bytes[..k], &mut chosen[..tau], out);
}
