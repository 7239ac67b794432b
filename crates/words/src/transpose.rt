// The 8 by 8 bits of 8 bytes transposed: a byte of each of 8 rows gathered, turned, and stored.
ghost use Rattle.std.specs.Prelude.{◌≡◌, ◌+◌, ◌*◌, ◌≤◌, ◌<◌, length};
ghost use Rattle.words.specs.Steps.{swapped, transposed, gathered, scattered, turned};

// The word x with the bits at the places of m exchanged for those d places above them.
fn swap(x: u64, m: u64, d: u64) -> u64
    requires { d < 64 }
    ensures { result ≡ swapped m d x }
{
    let t = (x ^ (x >> d)) & m;
    x ^ t ^ (t << d)
}

// The 8 by 8 bits of a word, bit j of byte i at bit i of byte j.
pub fn transpose8(x: u64) -> u64
    ensures { result ≡ transposed x }
{
    let y = swap(x, 0x00AA00AA00AA00AA, 7);
    let z = swap(y, 0x0000CCCC0000CCCC, 14);
    swap(z, 0x00000000F0F0F0F0, 28)
}

// Eight bytes as a word, the first lowest.
fn join8(a: u8, b: u8, c: u8, d: u8, e: u8, f: u8, g: u8, h: u8) -> u64
    ensures { result ≡ a + b * 256 + c * 65536 + d * 16777216 + e * 4294967296 + f * 1099511627776 + g * 281474976710656 + h * 72057594037927936 }
{
    (a as u64)
        + (b as u64) * 0x100
        + (c as u64) * 0x10000
        + (d as u64) * 0x1000000
        + (e as u64) * 0x100000000
        + (f as u64) * 0x10000000000
        + (g as u64) * 0x1000000000000
        + (h as u64) * 0x100000000000000
}

// The byte of s at j, and every step-th after it, 8 in all, as a word.
pub fn gather8(s: &[u8], j: usize, step: usize) -> u64
    requires { j + 7 * step < length s.now }
    ensures { result ≡ gathered 8 s.now j step }
{
    join8(
        s[j],
        s[j + step],
        s[j + 2 * step],
        s[j + 3 * step],
        s[j + 4 * step],
        s[j + 5 * step],
        s[j + 6 * step],
        s[j + 7 * step],
    )
}

// The same for n bytes, n at most 8.
pub fn gather(s: &[u8], j: usize, step: usize, n: usize) -> u64
    requires { (n ≤ 8) × (j + n * step < length s.now + step) }
    ensures { result ≡ gathered n s.now j step }
{
    if n == 8 {
        return gather8(s, j, step);
    }
    let mut x: u64 = 0;
    for i in 0..n {
        x |= (s[j + i * step] as u64) << ((8 * i) as u64);
    }
    x
}

// Stores the 8 bytes of x, the first at j, and each step after the one before.
fn scatter8(x: u64, memory: &mut [u8], j: usize, step: usize)
    requires { j + 7 * step < length memory.old }
    ensures { memory.new ≡ scattered 8 x j step memory.old }
{
    memory[j] = (x % 256) as u8;
    memory[j + step] = ((x >> 8) % 256) as u8;
    memory[j + 2 * step] = ((x >> 16) % 256) as u8;
    memory[j + 3 * step] = ((x >> 24) % 256) as u8;
    memory[j + 4 * step] = ((x >> 32) % 256) as u8;
    memory[j + 5 * step] = ((x >> 40) % 256) as u8;
    memory[j + 6 * step] = ((x >> 48) % 256) as u8;
    memory[j + 7 * step] = ((x >> 56) % 256) as u8;
}

// The same for n bytes, n at most 8.
pub fn scatter(x: u64, memory: &mut [u8], j: usize, step: usize, n: usize)
    requires { (n ≤ 8) × (j + n * step < length memory.old + step) }
    ensures { memory.new ≡ scattered n x j step memory.old }
{
    if n == 8 {
        scatter8(x, memory, j, step);
        return;
    }
    for i in 0..n {
        memory[j + i * step] = ((x >> ((8 * i) as u64)) % 256) as u8;
    }
}

// Transposes n bytes of s, from j on, each step after the one before, to r bytes of the memory, from k on, each stride after
// the one before.
pub fn turn(
    s: &[u8],
    j: usize,
    step: usize,
    n: usize,
    memory: &mut [u8],
    k: usize,
    stride: usize,
    r: usize,
)
    requires { ((n ≤ 8) × (j + n * step < length s.now + step)) × ((r ≤ 8) × (k + r * stride < length memory.old + stride)) }
    ensures { memory.new ≡ turned n r s.now j step k stride memory.old }
{
    let x = gather(s, j, step, n);
    scatter(transpose8(x), memory, k, stride, r);
}

// The same with bytes of the memory itself.
pub fn turn_within(
    memory: &mut [u8],
    j: usize,
    step: usize,
    n: usize,
    k: usize,
    stride: usize,
    r: usize,
)
    requires { ((n ≤ 8) × (j + n * step < length memory.old + step)) × ((r ≤ 8) × (k + r * stride < length memory.old + stride)) }
    ensures { memory.new ≡ turned n r memory.old j step k stride memory.old }
{
    let x = gather(memory, j, step, n);
    scatter(transpose8(x), memory, k, stride, r);
}
