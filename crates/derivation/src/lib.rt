// Seeds and tapes in a memory: a row of one party, or the rows of four parties at once, from keys that stand in the memory, too.
#![tactic(auto)]

ghost use Rattle.std.specs.Prelude.{◌≡◌, ◌&&◌, ◌||◌, ◌+◌, ◌*◌, ◌≤◌, ◌<◌, leb, ltb, length, get_or, take, drop};
ghost use Rattle.std.proofs.lemmas.List.Edits.{sets};
ghost use Rattle.four_sponges.specs.Steps.{four_rows};
ghost use Rattle.party.specs.Derive.{seed_row, tape_row};

pub mod committing;

use bits::copy;
use hashing::Context;
use party::{four_seed_rows, four_tapes, seed_row, tape};

// Whether parties i to i + 3 are there, and p is none of them.
pub fn four_without(i: u32, n: u32, p: u32) -> bool
    requires { i ≤ 64 }
    ensures { result ≡ (leb (i + 4) n && (ltb p i || ltb (i + 3) p)) }
{
    i + 4 <= n && (p < i || i + 3 < p)
}

// The key of 16 bytes from byte `at` of the memory on.
fn key(memory: &[u8], at: usize) -> [u8; 16]
    requires { at + 16 ≤ length memory.now }
    ensures { result ≡ take 16 (drop at memory.now) }
{
    let mut k = [0u8; 16];
    let end = at + 16;
    copy(&memory[at..end], &mut k);
    k
}

// Four keys, each `step` bytes after the one before.
fn four_keys(memory: &[u8], at: usize, step: usize) -> [u8; 64]
    requires { at + 3 * step + 16 ≤ length memory.now }
    ensures { result ≡ four_rows (λ k. take 16 (drop (at + k * step) memory.now)) }
{
    let mut keys = [0u8; 64];
    for k in 0..4 {
        let from = at + k * step;
        let to = k * 16;
        copy(&memory[from..from + 16], &mut keys[to..to + 16]);
    }
    keys
}

// Party i's seed and r as a row from byte `to` on, from its leaf at byte `leaf`.
pub fn seed_at(j: Context, i: u32, leaf: usize, to: usize, memory: &mut [u8])
    requires { (leaf + 16 ≤ length memory.old) × (to + 32 ≤ length memory.old) }
    ensures { memory.new ≡ sets memory.old to (seed_row j i (take 16 (drop leaf memory.old))) }
{
    let own = key(memory, leaf);
    let end = to + 32;
    seed_row(j, i, &own, &mut memory[to..end]);
}

// The same of parties i to i + 3: their leaves and their rows follow one another.
pub fn four_seeds_at(j: Context, i: u32, leaf: usize, to: usize, memory: &mut [u8])
    requires { (i + 3 < 4294967296) × ((leaf + 64 ≤ length memory.old) × (to + 128 ≤ length memory.old)) }
    ensures { memory.new ≡ sets memory.old to (four_rows (λ k. seed_row j (i + k) (take 16 (drop (leaf + k * 16) memory.old)))) }
{
    let keys = four_keys(memory, leaf, 16);
    let end = to + 128;
    four_seed_rows(j, i, keys, &mut memory[to..end]);
}

// Party i's tape as a row of len bytes from byte `to` on, from its seed at byte `seed`: the first k bits are used.
pub fn tape_at(j: Context, i: u32, seed: usize, k: usize, to: usize, len: usize, memory: &mut [u8])
    requires { (seed + 16 ≤ length memory.old) × (to + len ≤ length memory.old) }
    ensures { memory.new ≡ sets memory.old to (tape_row j i (take 16 (drop seed memory.old)) k len) }
{
    let own = key(memory, seed);
    let end = to + len;
    tape(j, i, &own, k, &mut memory[to..end]);
}

// The same of parties i to i + 3: their seeds stand in rows of 32 bytes, of row k the first used[k] bits are used.
pub fn four_tapes_at(
    j: Context,
    i: u32,
    seed: usize,
    used: [usize; 4],
    to: usize,
    len: usize,
    memory: &mut [u8],
)
    requires { (i + 3 < 4294967296) × ((seed + 112 ≤ length memory.old) × (to + 4 * len ≤ length memory.old)) }
    ensures { memory.new ≡ sets memory.old to (four_rows (λ k. tape_row j (i + k) (take 16 (drop (seed + k * 32) memory.old)) (get_or used k 0) len)) }
{
    let keys = four_keys(memory, seed, 32);
    let end = to + 4 * len;
    four_tapes(j, i, keys, used, &mut memory[to..end]);
}
