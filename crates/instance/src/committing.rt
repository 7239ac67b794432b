// The digests of an instance: over its commitments, and over its broadcasts.
ghost use Rattle.std.specs.Prelude.{◌≡◌, cond, ◌+◌, ◌-◌, ◌*◌, ◌≤◌, ◌<◌, eqb, length};
ghost use mathlib.Core.List.{flatten};
ghost use Rattle.bits.specs.Bits.{tabulate};
ghost use Rattle.planes.specs.Steps.{Room, rows_at, held_end};
ghost use Rattle.walk.specs.Steps.{layout_of};
ghost use Rattle.packed.specs.Steps.{broadcast_bytes, corrections_held, rows_sent};
ghost use Rattle.keccak.specs.Steps.{absorbs};
ghost use Rattle.hashing.specs.Digest.{given};
ghost use Rattle.party.specs.Derive.{commitment_to, commitment_of};
ghost use Rattle.instance.specs.Instance.{commitments_digest, online_digest};
ghost use Rattle.instance.specs.Steps.{seeds_held, Seeded, FirstTaken};

use crate::Instance;
use circuit::Sizes;
use derivation::committing::{take_first, take_one};
use hashing::{finish, start_commitments, start_online};
use keccak::SHA3_256_RATE;
use keccak::sponge::Sponge;
use packed::running::row_bytes;
use party::commit_row;
use planes::places::{corrections_at, rows_at, seeds_at, seeds_end};
use planes::rows::store_block;
use planes::tapes::rows_in;
use walk::layout;

// h_j over the commitments of n parties; `theirs` stands for party p's.
pub(crate) fn commit(
    inst: Instance,
    p: u32,
    theirs: &[u8],
    seeds: &[u8],
    corrections: &[u8],
) -> [u8; 32]
    requires { (inst.parties ≤ 64) × (length seeds.now ≡ 32 * inst.parties) }
    ensures { result ≡ commitments_digest inst.context.number (flatten (tabulate inst.parties (λ i. cond (eqb i p) theirs.now (commitment_of inst.context inst.parties i seeds.now corrections.now)))) }
{
    let j = inst.context;
    let n = inst.parties;
    if n == 0 {
        return finish(start_commitments(j.number));
    }
    let first = take_first(j, n, p, theirs, seeds);
    finish(take_one(first, j, n, n - 1, p, theirs, seeds, corrections))
}

// The sponge of h_j with the commitments of all parties before n − 1, from the seeds in the memory: they need no corrections.
pub(crate) fn commit_first(z: Sizes, inst: Instance, memory: &[u8]) -> Sponge
    requires { Room (layout_of z) memory.now × Seeded z inst.parties memory.now }
    ensures { FirstTaken inst.parties inst.context (seeds_held z inst.parties memory.now) result }
{
    let j = inst.context;
    let n = inst.parties;
    let l = layout(z);
    let seeds = seeds_at(l);
    let end = seeds_end(l, n as usize);
    // no party's commitment is given: what stands for it is not read
    take_first(j, n, n, &memory[..0], &memory[seeds..end])
}

// h_j, when party n − 1 commits too, to its seed and r, which are `last`, and to the corrections in the memory.
pub(crate) fn commit_last(
    z: Sizes,
    inst: Instance,
    first: Sponge,
    last: &[u8],
    memory: &[u8],
) -> [u8; 32]
    requires { Room (layout_of z) memory.now × ((held_end (layout_of z) inst.parties ≤ length memory.now) × ((1 ≤ inst.parties) × ((inst.parties ≤ 64) × ((first.fill < 136) × (length last.now ≡ 32))))) }
    ensures { result ≡ given (absorbs 136 first (commitment_to inst.context inst.parties (inst.parties - 1) last.now (corrections_held z memory.now))) }
{
    let j = inst.context;
    let n = inst.parties;
    let l = layout(z);
    let at = corrections_at(l);
    let rows = rows_at(l);
    let com = commit_row(j, n, n - 1, last, &memory[at..rows]);
    finish(first.absorb(SHA3_256_RATE, &com))
}

// h'_j over the masked inputs and the broadcasts in the memory, of which rows are made a group of 8 parties at a time. What then stands
// in the memory is not told.
pub(crate) fn online(j: u32, masked: &[u8], z: Sizes, n: usize, memory: &mut [u8]) -> [u8; 32]
    requires { Room (layout_of z) memory.old × ((n ≤ 64) × (rows_at (layout_of z) + 8 * broadcast_bytes z ≤ length memory.old)) }
    ensures { result ≡ online_digest j masked.now (rows_sent (layout_of z) n (broadcast_bytes z) memory.old) }
{
    let l = layout(z);
    let len = row_bytes(z);
    let a = rows_at(l);
    let mut s = start_online(j).absorb(SHA3_256_RATE, masked);
    for g in 0..n.div_ceil(8) {
        let count = rows_in(n, g);
        let end = a + count * len;
        store_block(l, memory, count, g, len);
        s = s.absorb(SHA3_256_RATE, &memory[a..end]);
    }
    finish(s)
}
