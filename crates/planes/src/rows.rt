// The broadcast words of all parties as rows, by blocks of 8 rows.
ghost use Rattle.std.specs.Prelude.{◌≡◌, ◌+◌, ◌*◌, ◌/◌, ◌≤◌, ◌<◌, length};
ghost use Rattle.planes.specs.Steps.{tape_words, broadcast_word, rows_at, Room, stored_words, stored_groups, stored_rows, stored_block};

use crate::Layout;
use crate::places::{rows_at, tape_at};
use crate::tapes::rows_in;
use blocks::{read_columns, store_column, transpose_rows};
use words::transpose::{turn, turn_within};

// Brings 64 words into 8 bytes of each of n rows of len bytes, n at most 8, those of the first from byte a of rows on: the byte of word q is
// at from + 8 q.
fn store_eight(memory: &[u8], from: usize, n: usize, rows: &mut [u8], a: usize, len: usize)
    requires { (n ≤ 8) × ((«from» + 504 < length memory.now) × ((len ≤ length memory.now) × (a + n * len + 7 < length rows.old + len))) }
    ensures { rows.new ≡ stored_words n memory.now «from» 8 a len rows.old }
{
    let r = transpose_rows(read_columns(memory, from));
    for b in 0..8 {
        store_column(r, b, rows, a + b, len, n);
    }
}

// Brings words into n rows of len bytes, n at most 8, the first from byte a of rows on: the byte of word q is at from + 8 q. Eight bytes of
// each row at a time, then those that are left one by one.
fn store_words(memory: &[u8], from: usize, n: usize, rows: &mut [u8], a: usize, len: usize)
    requires { (n ≤ 8) × ((«from» + 64 * len ≤ length memory.now + 7) × (a + n * len ≤ length rows.old)) }
    ensures { rows.new ≡ stored_words n memory.now «from» len a len rows.old }
{
    for g in 0..len / 8 {
        let k = 8 * g;
        store_eight(memory, from + 64 * k, n, rows, a + k, len);
    }
    for k in 8 * (len / 8)..len {
        turn(memory, from + 64 * k, 8, 8, rows, a + k, len, n);
    }
}

// Brings the words from `from` on into the rows of n parties, of len bytes each.
fn store_groups(memory: &[u8], from: usize, n: usize, rows: &mut [u8], len: usize)
    requires { (n ≤ 64) × ((«from» + 64 * len ≤ length memory.now) × (n * len ≤ length rows.old)) }
    ensures { rows.new ≡ stored_groups n memory.now «from» len ((n + 7) / 8) rows.old }
{
    for g in 0..n.div_ceil(8) {
        store_words(memory, from + g, rows_in(n, g), rows, g * (8 * len), len);
    }
}

// Brings the broadcast words into the rows of n parties, of len bytes each.
pub fn store_rows(l: Layout, memory: &[u8], n: usize, rows: &mut [u8], len: usize)
    requires { Room l memory.now × ((n ≤ 64) × ((broadcast_word l 0 + 8 * len ≤ tape_words l) × (n * len ≤ length rows.old))) }
    ensures { rows.new ≡ stored_rows l n memory.now len rows.old }
{
    let from = tape_at(l, l.inputs + l.ands);
    store_groups(memory, from, n, rows, len);
}

// Brings 64 words into 8 bytes of each of n rows of the memory, as store_eight does.
fn store_eight_within(memory: &mut [u8], from: usize, n: usize, a: usize, len: usize)
    requires { (n ≤ 8) × ((«from» + 504 < length memory.old) × ((len ≤ length memory.old) × (a + n * len + 7 < length memory.old + len))) }
    ensures { memory.new ≡ stored_words n memory.old «from» 8 a len memory.old }
{
    let r = transpose_rows(read_columns(memory, from));
    for b in 0..8 {
        store_column(r, b, memory, a + b, len, n);
    }
}

// Brings the words from `from` on into n rows of len bytes of the memory, n at most 8, the first from byte a on, as store_words does.
fn store_within(memory: &mut [u8], from: usize, n: usize, a: usize, len: usize)
    requires { (n ≤ 8) × ((«from» + 64 * len ≤ a + 7) × (a + n * len ≤ length memory.old)) }
    ensures { memory.new ≡ stored_words n memory.old «from» len a len memory.old }
{
    for g in 0..len / 8 {
        let k = 8 * g;
        store_eight_within(memory, from + 64 * k, n, a + k, len);
    }
    for k in 8 * (len / 8)..len {
        turn_within(memory, from + 64 * k, 8, 8, a + k, len, n);
    }
}

// Brings the broadcast words of group g into its n rows of len bytes, in the place of the rows.
pub fn store_block(l: Layout, memory: &mut [u8], n: usize, g: usize, len: usize)
    requires { Room l memory.old × ((n ≤ 8) × ((g < 8) × ((broadcast_word l 0 + 8 * len ≤ tape_words l) × (rows_at l + n * len ≤ length memory.old)))) }
    ensures { memory.new ≡ stored_block l n g len memory.old }
{
    let from = tape_at(l, l.inputs + l.ands);
    let a = rows_at(l);
    store_within(memory, from + g, n, a, len);
}
