// What a party has in an instance: its seed and r from its leaf, its tape row from its seed, its commitment.
#![tactic(auto)]

ghost use Rattle.std.specs.Prelude.{◌≡◌, List, ℕ, ◌+◌, ◌*◌, ◌/◌, ◌%◌, ◌≤◌, ◌<◌, length, get_or, take, drop};
ghost use Rattle.keccak.specs.Sponge.{shake128};
ghost use Rattle.keccak.specs.Steps.{empty, absorbs, closed};
ghost use Rattle.four_sponges.specs.Steps.{four_rows};
ghost use Rattle.party.specs.Derive.{seed_row, clear_from, tape_row, commitment_to, commitment_of};
ghost use Rattle.short.specs.Steps.{key_input};

use bits::{clear, row};
use four::join;
use four_sponges::squeeze4;
use hashing::{Context, close128, commit};
use keccak::sponge::Sponge;
use keccak::{SHA3_256_RATE, SHAKE128_RATE};
use short::{close_commitment, close_key};

// The closed sponge of what party i derives under a tag, from its key.
fn close_row(tag: u8, j: Context, i: u32, key: &[u8]) -> Sponge
    ensures { result ≡ closed 168 0x1f (absorbs 168 empty (key_input tag j i key.now)) }
{
    let salt = j.salt;
    let at = j.number;
    let head = [(at % 256) as u8, (at / 256 % 256) as u8, (i % 256) as u8];
    close128(tag, &salt, &head, key)
}

// What parties i to i + 3 derive under a tag, each from its key, as four rows of equal length.
fn four_rows(tag: u8, j: Context, i: u32, keys: &[u8], rows: &mut [u8])
    requires { (i + 3 < 4294967296) × ((length keys.now ≡ 64) × (length rows.old % 4 ≡ 0)) }
    ensures { rows.new ≡ four_rows (λ k. shake128 (key_input tag j (i + k) (take 16 (drop (16 * k) keys.now))) (length rows.old / 4)) }
{
    let a = close_key(tag, j, i, &keys[..16]);
    let b = close_key(tag, j, i + 1, &keys[16..32]);
    let c = close_key(tag, j, i + 2, &keys[32..48]);
    let d = close_key(tag, j, i + 3, &keys[48..64]);
    squeeze4(SHAKE128_RATE, join(a, b, c, d), rows);
}

// The seed of party i and its r, from its leaf.
pub fn seed_row(j: Context, i: u32, leaf: &[u8], out: &mut [u8])
    requires { length out.old ≡ 32 }
    ensures { out.new ≡ seed_row j i leaf.now }
{
    let s = close_row(3, j, i, leaf);
    let _ = s.squeeze(SHAKE128_RATE, out);
}

// The seeds of parties i to i + 3, each with its r, from their leaves.
pub fn four_seed_rows(j: Context, i: u32, leaves: [u8; 64], rows: &mut [u8])
    requires { (i + 3 < 4294967296) × (length rows.old ≡ 128) }
    ensures { rows.new ≡ four_rows (λ k. seed_row j (i + k) (take 16 (drop (16 * k) leaves))) }
{
    four_rows(3, j, i, &leaves, rows);
}

// Clears every bit from bit k on.
fn clear_from(s: &mut [u8], k: usize)
    ensures { s.new ≡ clear_from k s.old }
{
    let at = k / 8;
    if at < s.len() {
        s[at] %= 1u8 << ((k % 8) as u8);
        let next = at + 1;
        clear(&mut s[next..]);
    }
}

// The tape row of party i, from its seed: the first k bits are used.
pub fn tape(j: Context, i: u32, seed: &[u8], k: usize, row: &mut [u8])
    ensures { row.new ≡ tape_row j i seed.now k (length row.old) }
{
    let s = close_row(4, j, i, seed);
    let _ = s.squeeze(SHAKE128_RATE, row);
    clear_from(row, k);
}

// The tape rows of parties i to i + 3, of equal length, from their seeds: of row k the first used[k] bits are used.
pub fn four_tapes(j: Context, i: u32, seeds: [u8; 64], used: [usize; 4], rows: &mut [u8])
    requires { (i + 3 < 4294967296) × (length rows.old % 4 ≡ 0) }
    ensures { rows.new ≡ four_rows (λ k. tape_row j (i + k) (take 16 (drop (16 * k) seeds)) (get_or used k 0) (length rows.old / 4)) }
{
    four_rows(4, j, i, &seeds, rows);
    let len = rows.len() / 4;
    for k in 0..4 {
        let at = k * len;
        clear_from(&mut rows[at..at + len], used[k]);
    }
}

// The commitment of party i of n; the row is its seed and its r.
pub fn commit_row(j: Context, n: u32, i: u32, row: &[u8], corrections: &[u8]) -> [u8; 32]
    requires { (i < 256) × (length row.now ≡ 32) }
    ensures { result ≡ commitment_to j n i row.now corrections.now }
{
    let salt = j.salt;
    let at = j.number;
    let head = [(at % 256) as u8, (at / 256 % 256) as u8, (i % 256) as u8];
    let own = if i + 1 == n { corrections.len() } else { 0 };
    commit(&salt, &head, &row[..16], &corrections[..own], &row[16..])
}

// The same; row i of the rows is its seed and its r.
pub fn commitment(j: Context, n: u32, i: u32, rows: &[u8], corrections: &[u8]) -> [u8; 32]
    requires { (i < 256) × (i * 32 + 32 ≤ length rows.now) }
    ensures { result ≡ commitment_of j n i rows.now corrections.now }
{
    commit_row(j, n, i, row(rows, 32, i as usize), corrections)
}

// The commitments of parties i to i + 3, none of them party n − 1; row k of the rows is the seed and the r of party i + k.
pub fn four_commitments(j: Context, i: u32, rows: &[u8]) -> [u8; 128]
    requires { (i + 3 < 4294967296) × (length rows.now ≡ 128) }
    ensures { (n : ℕ) (corrections : List ℕ) → i + 4 < n → result ≡ four_rows (λ k. commitment_to j n (i + k) (take 32 (drop (32 * k) rows.now)) corrections) }
{
    let a = close_commitment(j, i, &rows[..32]);
    let b = close_commitment(j, i + 1, &rows[32..64]);
    let c = close_commitment(j, i + 2, &rows[64..96]);
    let d = close_commitment(j, i + 3, &rows[96..128]);
    let mut out = [0u8; 128];
    squeeze4(SHA3_256_RATE, join(a, b, c, d), &mut out);
    out
}
