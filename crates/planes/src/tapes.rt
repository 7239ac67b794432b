// The tapes of all parties as words, by blocks of 8 rows.
ghost use Rattle.std.specs.Prelude.{◌≡◌, [], ◌∷◌, ◌+◌, ◌*◌, ◌/◌, ◌≤◌, ◌<◌, length, drop};
ghost use Rattle.words.specs.Steps.{turned};
ghost use Rattle.planes.specs.Steps.{tape_words, corrections_at, rows_at, broadcast_word, Room, cleared, cleared_tapes, loaded_words, rows_in, loaded_groups, loaded_rows, put_bits, put_party};

use crate::Layout;
use crate::places::{corrections_at, rows_at, tape_at, tape_words};
use blocks::{read_rows, store_column, transpose_rows};
use words::transpose::{gather, scatter, transpose8};
use words::{chosen, every, place};

// Sets count bytes of the memory to zero, from `to` on.
fn clear_part(memory: &mut [u8], to: usize, count: usize)
    requires { to + count ≤ length memory.old }
    ensures { memory.new ≡ cleared to count memory.old }
{
    memory[to..to + count].fill(0);
}

// Brings byte k of each of n rows of len bytes of the memory, n at most 8, which are one part of it from byte a on, into 8 words: bit t of
// the bytes to the byte at to + 64 k + 8 t.
fn turn_rows(memory: &mut [u8], a: usize, len: usize, n: usize, k: usize, to: usize)
    requires { (n ≤ 8) × ((k < len) × ((a + n * len ≤ length memory.old) × (to + 64 * k + 56 < length memory.old))) }
    ensures { memory.new ≡ turned n 8 memory.old (a + k) len (to + 64 * k) 8 memory.old }
{
    let rows = bits::row(&memory[a..], n * len, 0);
    let x = gather(rows, k, len, n);
    scatter(transpose8(x), memory, to + 64 * k, 8, 8);
}

// Brings 8 bytes, from byte k on, of each of n rows of len bytes of the memory, n at most 8, which are one part of it from byte a on, into 64
// words: bit q of those bytes to the byte at to + 64 k + 8 q.
fn load_block(memory: &mut [u8], a: usize, len: usize, n: usize, k: usize, to: usize)
    requires { (n ≤ 8) × ((k + 8 ≤ len) × ((a + n * len ≤ length memory.old) × (to + 64 * k + 504 < length memory.old))) }
    ensures { memory.new ≡ loaded_words n memory.old (a + k) len 8 (to + 64 * k) memory.old }
{
    let rows = bits::row(&memory[a..], n * len, 0);
    let w = transpose_rows(read_rows(rows, k, len, n));
    let first = to + 64 * k;
    for b in 0..8 {
        store_column(w, b, memory, first + 64 * b, 8, 8);
    }
}

// Brings n rows of len bytes of the memory, n at most 8, the first from byte a on, into words before them: bit q of the rows to the byte
// at to + 8 q. Eight bytes of each row at a time, then those that are left one by one.
fn load_words(memory: &mut [u8], a: usize, len: usize, n: usize, to: usize)
    requires { (n ≤ 8) × ((a + n * len ≤ length memory.old) × (to + 64 * len ≤ a + 7)) }
    ensures { memory.new ≡ loaded_words n memory.old a len len to memory.old }
{
    for g in 0..len / 8 {
        load_block(memory, a, len, n, 8 * g, to);
    }
    for k in 8 * (len / 8)..len {
        turn_rows(memory, a, len, n, k, to);
    }
}

// The parties of group g: 8, or those that are left of n.
pub fn rows_in(n: usize, g: usize) -> usize
    requires { 8 * g < n }
    ensures { (result ≡ rows_in n g) × ((result ≤ 8) × (8 * g + result ≤ n)) }
{
    (n - 8 * g).min(8)
}

// Brings the rows of n parties, the first from byte a of the memory on, into the words from `to` on, a group at a time.
fn load_groups(memory: &mut [u8], a: usize, len: usize, n: usize, to: usize)
    requires { (n ≤ 64) × ((a + n * len ≤ length memory.old) × (to + 64 * len ≤ a)) }
    ensures { memory.new ≡ loaded_groups n (drop a memory.old) len ((n + 7) / 8) to memory.old }
{
    for g in 0..n.div_ceil(8) {
        load_words(memory, a + g * (8 * len), len, rows_in(n, g), to + g);
    }
}

// Sets all tape words to zero.
pub fn clear_tapes(l: Layout, memory: &mut [u8])
    requires { Room l memory.old }
    ensures { memory.new ≡ cleared_tapes l memory.old }
{
    let to = tape_at(l, 0);
    clear_part(memory, to, 8 * tape_words(l));
}

// Brings the tape rows of n parties, of len bytes each, which stand in the memory, into the tape words, which are cleared before.
pub fn load_rows(l: Layout, memory: &mut [u8], len: usize, n: usize)
    requires { Room l memory.old × ((n ≤ 64) × ((rows_at l + n * len ≤ length memory.old) × (8 * len ≤ tape_words l))) }
    ensures { memory.new ≡ loaded_rows l n len memory.old }
{
    clear_tapes(l, memory);
    let to = tape_at(l, 0);
    let a = rows_at(l);
    load_groups(memory, a, len, n, to);
}

// Puts the bits of a byte at the places of hidden in the 8 words from `to` on: no branch tells them.
fn put_byte(memory: &mut [u8], to: usize, hidden: u64, x: u8)
    requires { to + 64 ≤ length memory.old }
    ensures { memory.new ≡ put_bits to hidden (x ∷ []) 8 memory.old }
{
    for t in 0..8 {
        let old = bits::read_u64(memory, to + 8 * t);
        let new = every(x >> (t as u8));
        let y = chosen(hidden, new, old);
        bits::write_u64(memory, to + 8 * t, y);
    }
}

// Puts the bits of the whole bytes of a row of count bits at the places of hidden in the words from `to` on.
fn put_bytes(memory: &mut [u8], to: usize, hidden: u64, row: &[u8], count: usize)
    requires { (to + 8 * count ≤ length memory.old) × (count ≤ 8 * length row.now) }
    ensures { memory.new ≡ put_bits to hidden row.now (8 * (count / 8)) memory.old }
{
    for k in 0..count / 8 {
        put_byte(memory, to + 64 * k, hidden, row[k]);
    }
}

// Puts the bits of a row at the places of hidden in the words from `to` on.
fn put_bits(memory: &mut [u8], to: usize, hidden: u64, row: &[u8], count: usize)
    requires { (to + 8 * count ≤ length memory.old) × (count ≤ 8 * length row.now) }
    ensures { memory.new ≡ put_bits to hidden row.now count memory.old }
{
    put_bytes(memory, to, hidden, row, count);
    for t in 8 * (count / 8)..count {
        let old = bits::read_u64(memory, to + 8 * t);
        let new = every(bits::bit(row, t));
        let x = chosen(hidden, new, old);
        bits::write_u64(memory, to + 8 * t, x);
    }
}

// Puts party p's bits of count tape words from word q on, as in a row of bits.
pub fn put_party(l: Layout, q: usize, p: usize, row: &[u8], count: usize, memory: &mut [u8])
    requires { Room l memory.old × ((q + count ≤ tape_words l) × (count ≤ 8 * length row.now)) }
    ensures { memory.new ≡ put_party l q p row.now count memory.old }
{
    let to = tape_at(l, q);
    put_bits(memory, to, place(p), row, count);
}

// Puts the bits of the whole bytes of a row of count bits, which stands in the memory from byte a on, at the places of hidden in the words
// from `to` on.
fn put_held_bytes(memory: &mut [u8], to: usize, hidden: u64, a: usize, count: usize)
    requires { (a ≤ 1073741824) × ((to + 8 * count ≤ a) × (8 * a + count ≤ 8 * length memory.old)) }
    ensures { memory.new ≡ put_bits to hidden (drop a memory.old) (8 * (count / 8)) memory.old }
{
    for k in 0..count / 8 {
        let x = memory[a + k];
        put_byte(memory, to + 64 * k, hidden, x);
    }
}

// Puts the bits of a row that stands in the memory from byte a on at the places of hidden in the words from `to` on.
fn put_held_bits(memory: &mut [u8], to: usize, hidden: u64, a: usize, count: usize)
    requires { (a ≤ 1073741824) × ((to + 8 * count ≤ a) × (8 * a + count ≤ 8 * length memory.old)) }
    ensures { memory.new ≡ put_bits to hidden (drop a memory.old) count memory.old }
{
    put_held_bytes(memory, to, hidden, a, count);
    for t in 8 * (count / 8)..count {
        let old = bits::read_u64(memory, to + 8 * t);
        let new = every(bits::bit(memory, 8 * a + t));
        let x = chosen(hidden, new, old);
        bits::write_u64(memory, to + 8 * t, x);
    }
}

// Puts the corrections, which stand in the memory, as party p's product shares.
pub fn put_corrections(l: Layout, p: usize, memory: &mut [u8])
    requires { Room l memory.old × (rows_at l ≤ length memory.old) }
    ensures { memory.new ≡ put_party l (broadcast_word l 0) p (drop (corrections_at l) memory.old) l.ands memory.old }
{
    let to = tape_at(l, l.inputs + l.ands);
    let a = corrections_at(l);
    put_held_bits(memory, to, place(p), a, l.ands);
}
