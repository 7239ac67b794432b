// The commitments of the parties of an instance, taken in by the sponge of h_j, of one party or of four at once.
ghost use Rattle.std.specs.Prelude.{◌≡◌, ℕ, ◌+◌, ◌-◌, ◌*◌, ◌≤◌, ◌<◌, length};
ghost use mathlib.Core.List.{List, [], flatten};
ghost use Rattle.bits.specs.Bits.{tabulate};
ghost use Rattle.keccak.specs.Steps.{absorbs};
ghost use Rattle.hashing.specs.Inputs.{commitments_input};
ghost use Rattle.hashing.specs.Digest.{taken};
ghost use Rattle.party.specs.Derive.{commitment_of};
ghost use Rattle.derivation.specs.Steps.{commitment_but};

use crate::four_without;
use hashing::{Context, start_commitments};
use keccak::SHA3_256_RATE;
use keccak::sponge::Sponge;
use party::{commitment, four_commitments};

// Takes in the commitment of party i of n; `theirs` stands for party p's.
pub fn take_one(
    s: Sponge,
    j: Context,
    n: u32,
    i: u32,
    p: u32,
    theirs: &[u8],
    seeds: &[u8],
    corrections: &[u8],
) -> Sponge
    requires { (s.fill < 136) × ((i < n) × ((n ≤ 64) × (length seeds.now ≡ 32 * n))) }
    ensures { result ≡ absorbs 136 s (commitment_but j n p theirs.now seeds.now corrections.now i) }
{
    if i == p {
        return s.absorb(SHA3_256_RATE, theirs);
    }
    let c = commitment(j, n, i, seeds, corrections);
    s.absorb(SHA3_256_RATE, &c)
}

// Takes in the commitments of parties i to i + 3, none of them party n − 1.
fn take_four(s: Sponge, j: Context, i: u32, seeds: &[u8]) -> Sponge
    requires { (s.fill < 136) × ((i ≤ 64) × (32 * i + 128 ≤ length seeds.now)) }
    ensures { (n : ℕ) (corrections : List ℕ) → i + 4 < n → result ≡ absorbs 136 s (flatten (tabulate 4 (λ k. commitment_of j n (i + k) seeds.now corrections))) }
{
    let a = 32 * (i as usize);
    let e = a + 128;
    let c = four_commitments(j, i, &seeds[a..e]);
    s.absorb(SHA3_256_RATE, &c)
}

// The sponge of h_j with the commitments of all parties before n − 1, which need no corrections: four at once where p (n for none) is not
// among them, else one; `theirs` stands for party p's.
pub fn take_first(j: Context, n: u32, p: u32, theirs: &[u8], seeds: &[u8]) -> Sponge
    requires { (1 ≤ n) × ((n ≤ 64) × (length seeds.now ≡ 32 * n)) }
    ensures { result ≡ taken (commitments_input j.number (flatten (tabulate (n - 1) (commitment_but j n p theirs.now seeds.now [])))) }
{
    let last = n - 1;
    let mut s = start_commitments(j.number);
    let mut i = 0;
    // The step is 4 or 1, so this is no `for`.
    while i < last {
        if four_without(i, last, p) {
            s = take_four(s, j, i, seeds);
            i += 4;
        } else {
            s = take_one(s, j, n, i, p, theirs, seeds, &seeds[..0]);
            i += 1;
        }
    }
    s
}
