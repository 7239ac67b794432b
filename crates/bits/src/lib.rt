// Bits and numbers in byte strings, lowest first, and the rows of a flat buffer.
#![tactic(auto)]

ghost use Rattle.std.specs.Prelude.{◌≡◌, ◌+◌, ◌*◌, ◌≤◌, ◌<◌, length, replicate};
ghost use Rattle.std.proofs.lemmas.List.Edits.{sets};
ghost use Rattle.bits.specs.Bits.{oct, bit_val, odd, bit_at, unused_zero};
ghost use Rattle.bits.specs.Bytes.{le_at, le_bytes, same_bytes, row_of};
ghost use Rattle.bits.specs.Steps.{put_bit};

// The bytes that k bits take.
pub fn oct(k: usize) -> usize
    ensures { result ≡ oct k }
{
    k / 8 + (k % 8 + 7) / 8
}

// Bit k of s, as 0 or 1.
pub fn bit(s: &[u8], k: usize) -> u8
    requires { k < 8 * length s.now }
    ensures { result ≡ bit_val (bit_at s.now k) }
{
    (s[k / 8] >> ((k % 8) as u8)) % 2
}

// Puts bit k of s to the lowest bit of b.
pub fn put_bit(s: &mut [u8], k: usize, b: u8)
    requires { k < 8 * length s.old }
    ensures { s.new ≡ put_bit s.old k (odd b) }
{
    let j = k / 8;
    let z = (k % 8) as u8;
    let x = s[j];
    s[j] = x - (((x >> z) % 2) << z) + ((b % 2) << z);
}

// Whether every bit of s from bit k on is zero.
pub fn unused_zero(s: &[u8], k: usize) -> bool
    ensures { result ≡ unused_zero k s.now }
{
    let j = k / 8;
    if s.len() <= j {
        return true;
    }
    let mut rest = s[j] >> ((k % 8) as u8);
    for i in j + 1..s.len() {
        rest |= s[i];
    }
    rest == 0
}

// Not by from_le_bytes and to_le_bytes: the three widths stand on one another, and their definitions go byte by byte.
// The number in the 2 bytes of s from `at` on.
pub fn read_u16(s: &[u8], at: usize) -> u16
    requires { at + 2 ≤ length s.now }
    ensures { result ≡ le_at 2 s.now at }
{
    (s[at] as u16) | ((s[at + 1] as u16) << 8)
}

// The number in the 4 bytes of s from `at` on.
pub fn read_u32(s: &[u8], at: usize) -> u32
    requires { at + 4 ≤ length s.now }
    ensures { result ≡ le_at 4 s.now at }
{
    (read_u16(s, at) as u32) | ((read_u16(s, at + 2) as u32) << 16)
}

// The number in the 8 bytes of s from `at` on.
pub fn read_u64(s: &[u8], at: usize) -> u64
    requires { at + 8 ≤ length s.now }
    ensures { result ≡ le_at 8 s.now at }
{
    (read_u32(s, at) as u64) | ((read_u32(s, at + 4) as u64) << 32)
}

// Writes the 2 bytes of x to s from `at` on.
pub fn write_u16(s: &mut [u8], at: usize, x: u16)
    requires { at + 2 ≤ length s.old }
    ensures { s.new ≡ sets s.old at (le_bytes 2 x) }
{
    s[at] = (x % 256) as u8;
    s[at + 1] = (x / 256) as u8;
}

// Writes the 4 bytes of x to s from `at` on.
pub fn write_u32(s: &mut [u8], at: usize, x: u32)
    requires { at + 4 ≤ length s.old }
    ensures { s.new ≡ sets s.old at (le_bytes 4 x) }
{
    write_u16(s, at, (x % 65536) as u16);
    write_u16(s, at + 2, (x / 65536) as u16);
}

// Writes the 8 bytes of x to s from `at` on.
pub fn write_u64(s: &mut [u8], at: usize, x: u64)
    requires { at + 8 ≤ length s.old }
    ensures { s.new ≡ sets s.old at (le_bytes 8 x) }
{
    write_u32(s, at, (x % 4294967296) as u32);
    write_u32(s, at + 4, (x / 4294967296) as u32);
}

// Whether a and b are the same bytes. Not by ==, which stops at the first that differ: secrets decide no branch.
pub fn same(a: &[u8], b: &[u8]) -> bool
    ensures { result ≡ same_bytes a.now b.now }
{
    if a.len() != b.len() {
        return false;
    }
    let mut diff: u8 = 0;
    for (x, y) in a.iter().zip(b) {
        diff |= x ^ y;
    }
    diff == 0
}

// Copies the bytes. Not by copy_from_slice: for that a host of the archive would have to bring memmove.
pub fn copy(from: &[u8], to: &mut [u8])
    requires { length to.old ≡ length «from».now }
    ensures { to.new ≡ «from».now }
{
    for k in 0..to.len() {
        to[k] = from[k];
    }
}

// Sets every byte to zero. A call by this name is as plain as one of fill, so it stays.
pub fn clear(s: &mut [u8])
    ensures { s.new ≡ replicate (length s.old) 0 }
{
    s.fill(0);
}

// Row `party` of s in rows of len bytes; the empty part where it is not wholly inside.
pub fn row(s: &[u8], len: usize, party: usize) -> &[u8]
    ensures { result.now ≡ row_of s.now len party }
{
    if len == 0 {
        return &s[0..0];
    }
    if party < s.len() / len {
        let a = party * len;
        let e = a + len;
        &s[a..e]
    } else {
        &s[0..0]
    }
}
