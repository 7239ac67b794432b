// FIPS 202: SHA3-256, SHAKE128 and SHAKE256 over the permutation Keccak-f[1600].
#![tactic(auto)]

ghost use Rattle.std.specs.Prelude.{◌≡◌, ◌%◌, ◌<◌, length};
ghost use Rattle.keccak.specs.Sponge.{sponge as construction, «sha3_256», shake128 as «shake128-of», shake256 as «shake256-of»};

pub mod sponge;
mod state;

use sponge::Sponge;

// The rates in bytes.
pub const SHAKE128_RATE: usize = 168;

pub const SHAKE256_RATE: usize = 136;

pub const SHA3_256_RATE: usize = 136;

// The first byte of the padding, with the suffix that tells the two families apart.
pub const SHAKE_FIRST: u8 = 0x1f;

pub const SHA3_FIRST: u8 = 0x06;

// The sponge construction: fills the lent output.
fn hash(rate: usize, first: u8, data: &[u8], out: &mut [u8])
    requires { (0 < rate) × ((rate < 200) × ((rate % 8 ≡ 0) × (first < 128))) }
    ensures { out.new ≡ construction rate first «data».now (length out.old) }
{
    let s = Sponge::new().absorb(rate, data).pad(rate, first);
    let _ = s.squeeze(rate, out);
}

// SHAKE128 of the data, as long as the lent output.
pub fn shake128(data: &[u8], out: &mut [u8])
    ensures { out.new ≡ «shake128-of» «data».now (length out.old) }
{
    hash(SHAKE128_RATE, SHAKE_FIRST, data, out);
}

// SHAKE256 of the data, as long as the lent output.
pub fn shake256(data: &[u8], out: &mut [u8])
    ensures { out.new ≡ «shake256-of» «data».now (length out.old) }
{
    hash(SHAKE256_RATE, SHAKE_FIRST, data, out);
}

// SHA3-256 of the data.
pub fn sha3_256(data: &[u8]) -> [u8; 32]
    ensures { result ≡ «sha3_256» «data».now }
{
    let mut out = [0u8; 32];
    hash(SHA3_256_RATE, SHA3_FIRST, data, &mut out);
    out
}
