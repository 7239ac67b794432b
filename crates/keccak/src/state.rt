// Bytes of the state in its lanes: byte k is byte k mod 8 of lane k / 8, lowest first.
ghost use Rattle.std.specs.Prelude.{◌≡◌, ◌+◌, ◌%◌, ◌≤◌, ◌<◌, length};
ghost use Rattle.keccak.specs.Steps.{byte_at, xor_byte, xor_bytes};

// XORs b into byte k of the state.
pub(crate) fn xor_byte(l: &mut [u64; 25], k: usize, b: u8)
    requires { k < 200 }
    ensures { l.new ≡ xor_byte l.old k b }
{
    let i = k / 8;
    l[i] ^= (b as u64) << ((8 * (k % 8)) as u64);
}

// XORs whole lanes into the state, from byte k on, a lane's start.
pub(crate) fn xor_lanes(l: &mut [u64; 25], k: usize, part: &[u8])
    requires { (k % 8 ≡ 0) × ((length part.now % 8 ≡ 0) × (k + length part.now ≤ 200)) }
    ensures { l.new ≡ xor_bytes l.old k part.now }
{
    for j in 0..part.len() / 8 {
        l[k / 8 + j] ^= bits::read_u64(part, 8 * j);
    }
}

// Byte k of the state.
pub(crate) fn byte_at(l: &[u64; 25], k: usize) -> u8
    requires { k < 200 }
    ensures { result ≡ byte_at l.now k }
{
    ((l[k / 8] >> ((8 * (k % 8)) as u64)) % 256) as u8
}
