// Eight blocks of 8 by 8 bits at once, block b in byte b of each of 8 words: 8 bytes of each of 8 rows, or the bytes of 64 places, transposed
// and stored.
#![tactic(auto)]

ghost use Rattle.std.specs.Prelude.{◌≡◌, ◌+◌, ◌*◌, ◌≤◌, ◌<◌, length};
ghost use Rattle.blocks.specs.Steps.{row_words, column_words, exchanged, transposed_rows, stored_column};

use words::transpose::gather8;

// Eight bytes of s, from j on, as a word, and each step after it, n in all; zeros for the words that are left of 8.
pub fn read_rows(s: &[u8], j: usize, step: usize, n: usize) -> [u64; 8]
    requires { (n ≤ 8) × (j + n * step + 8 ≤ length s.now + step) }
    ensures { result ≡ row_words n s.now j step }
{
    let mut r = [0u64; 8];
    for p in 0..n {
        r[p] = bits::read_u64(s, j + p * step);
    }
    r
}

// The byte of s at j, and every 64th after it, 8 in all, as a word, and the same from every 8th byte after j.
pub fn read_columns(s: &[u8], j: usize) -> [u64; 8]
    requires { j + 504 < length s.now }
    ensures { result ≡ column_words s.now j }
{
    [
        gather8(s, j, 64),
        gather8(s, j + 8, 64),
        gather8(s, j + 16, 64),
        gather8(s, j + 24, 64),
        gather8(s, j + 32, 64),
        gather8(s, j + 40, 64),
        gather8(s, j + 48, 64),
        gather8(s, j + 56, 64),
    ]
}

// The words i and i + 4 with the bits of the first d places above those of m exchanged for those of the second at the places of m, as words
// 2 i and 2 i + 1.
fn exchange(r: [u64; 8], m: u64, d: u64) -> [u64; 8]
    requires { d < 64 }
    ensures { result ≡ exchanged m d r }
{
    let t0 = ((r[0] >> d) ^ r[4]) & m;
    let t1 = ((r[1] >> d) ^ r[5]) & m;
    let t2 = ((r[2] >> d) ^ r[6]) & m;
    let t3 = ((r[3] >> d) ^ r[7]) & m;
    [
        r[0] ^ (t0 << d),
        r[4] ^ t0,
        r[1] ^ (t1 << d),
        r[5] ^ t1,
        r[2] ^ (t2 << d),
        r[6] ^ t2,
        r[3] ^ (t3 << d),
        r[7] ^ t3,
    ]
}

// In each byte, bit t of word p at bit p of word t.
pub fn transpose_rows(r: [u64; 8]) -> [u64; 8]
    ensures { result ≡ transposed_rows r }
{
    let a = exchange(r, 0x0F0F0F0F0F0F0F0F, 4);
    let b = exchange(a, 0x3333333333333333, 2);
    exchange(b, 0x5555555555555555, 1)
}

// Stores byte b of each of 8 words, the first at j, and each step after the one before.
fn store_column8(w: [u64; 8], b: usize, memory: &mut [u8], j: usize, step: usize)
    requires { (b < 8) × (j + 7 * step < length memory.old) }
    ensures { memory.new ≡ stored_column 8 w b j step memory.old }
{
    let d = (8 * b) as u64;
    memory[j] = ((w[0] >> d) % 256) as u8;
    memory[j + step] = ((w[1] >> d) % 256) as u8;
    memory[j + 2 * step] = ((w[2] >> d) % 256) as u8;
    memory[j + 3 * step] = ((w[3] >> d) % 256) as u8;
    memory[j + 4 * step] = ((w[4] >> d) % 256) as u8;
    memory[j + 5 * step] = ((w[5] >> d) % 256) as u8;
    memory[j + 6 * step] = ((w[6] >> d) % 256) as u8;
    memory[j + 7 * step] = ((w[7] >> d) % 256) as u8;
}

// The same for n words, n at most 8.
pub fn store_column(w: [u64; 8], b: usize, memory: &mut [u8], j: usize, step: usize, n: usize)
    requires { (b < 8) × ((n ≤ 8) × (j + n * step < length memory.old + step)) }
    ensures { memory.new ≡ stored_column n w b j step memory.old }
{
    if n == 8 {
        store_column8(w, b, memory, j, step);
        return;
    }
    let d = (8 * b) as u64;
    for i in 0..n {
        memory[j + i * step] = ((w[i] >> d) % 256) as u8;
    }
}
