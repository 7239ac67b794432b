// Seeds and tapes of the parties of an instance, in the work memory.
ghost use Rattle.std.specs.Prelude.{◌≡◌, cond, suc, ◌+◌, ◌*◌, ◌≤◌, ◌<◌, eqb, length, take, drop};
ghost use mathlib.Core.List.{flatten};
ghost use Rattle.std.proofs.lemmas.List.Edits.{sets};
ghost use Rattle.bits.specs.Bits.{oct, tabulate};
ghost use Rattle.bits.specs.Bytes.{row_of};
ghost use Rattle.circuit.specs.File.{circuit_of};
ghost use Rattle.mpc.specs.Steps.{Known};
ghost use Rattle.tree.specs.Tree.{opened_below};
ghost use Rattle.planes.specs.Steps.{Room};
ghost use Rattle.walk.specs.Steps.{layout_of};
ghost use Rattle.packed.specs.Steps.{tapes_held};
ghost use Rattle.instance.specs.Instance.{seeds_but, master_seeds, master_tapes};
ghost use Rattle.instance.specs.Steps.{Lent, Seeded, seeds_held, seed_but, tape_but, tapes_but};

use crate::Instance;
use bits::{clear, copy};
use circuit::Sizes;
use derivation::{four_seeds_at, four_tapes_at, four_without, seed_at, tape_at};
use mpc::tests::used_bits;
use planes::places::{leaves_at, rows_at, seeds_at, seeds_end};
use tree::{leaves_below, opened_below};
use walk::layout;

// Party i's seed and r, from the memory.
pub(crate) fn seed_of(z: Sizes, n: u32, i: u32, memory: &[u8]) -> [u8; 32]
    requires { Room (layout_of z) memory.now × (Seeded z n memory.now × (i < n)) }
    ensures { result ≡ row_of (seeds_held z n memory.now) 32 i }
{
    let l = layout(z);
    let seeds = seeds_at(l);
    let end = seeds_end(l, n as usize);
    let mut out = [0u8; 32];
    copy(bits::row(&memory[seeds..end], 32, i as usize), &mut out);
    out
}

// The next seeds with their r, from party i on, as rows from byte `to` of the memory on: those of four parties at once where p (n for none)
// is not among them, else one; the row of party p is zero. Answers their number.
fn next_seeds(inst: Instance, p: u32, i: u32, leaves: usize, to: usize, memory: &mut [u8]) -> u32
    requires { (inst.parties ≤ 64) × ((i < inst.parties) × ((to + 32 * inst.parties ≤ leaves) × (leaves + 16 * inst.parties ≤ length memory.old))) }
    ensures { (0 < result) × ((i + result ≤ inst.parties) × (memory.new ≡ sets memory.old (to + i * 32) (flatten (tabulate result (λ k. seed_but p inst.context (take (16 * inst.parties) (drop leaves memory.old)) (i + k)))))) }
{
    let j = inst.context;
    let n = inst.parties;
    let k = i as usize;
    let leaf = leaves + 16 * k;
    let a = to + 32 * k;
    if i == p {
        let end = a + 32;
        clear(&mut memory[a..end]);
        return 1;
    }
    if four_without(i, n, p) {
        four_seeds_at(j, i, leaf, a, memory);
        return 4;
    }
    seed_at(j, i, leaf, a, memory);
    1
}

// The seed and r of each party but p (n for none), from the leaves, as rows from byte `to` of the memory on.
fn seed_rows(inst: Instance, p: u32, leaves: usize, to: usize, memory: &mut [u8])
    requires { (inst.parties ≤ 64) × ((to + 32 * inst.parties ≤ leaves) × (leaves + 16 * inst.parties ≤ length memory.old)) }
    ensures { memory.new ≡ sets memory.old to (seeds_but inst.parties p inst.context (take (16 * inst.parties) (drop leaves memory.old))) }
{
    let n = inst.parties;
    let mut i = 0;
    // one step or four, as the callee answers: no range
    while i < n {
        i += next_seeds(inst, p, i, leaves, to, memory);
    }
}

// The bits that parties i to i + 3 of n use of their rows.
fn four_used(inputs: usize, ands: usize, n: usize, i: usize) -> [usize; 4]
    requires { (inputs ≤ 4194304) × ((ands ≤ 4194304) × (i + 3 ≤ 4194304)) }
    ensures { result ≡ tabulate 4 (λ k. cond (eqb (suc (i + k)) n) (inputs + ands) (inputs + 2 * ands)) }
{
    [
        used_bits(inputs, ands, n, i),
        used_bits(inputs, ands, n, i + 1),
        used_bits(inputs, ands, n, i + 2),
        used_bits(inputs, ands, n, i + 3),
    ]
}

// The next tapes, from party i on, as rows from byte `to` of the memory on, like the seeds.
fn next_tapes(
    s: &[u8],
    z: Sizes,
    inst: Instance,
    p: u32,
    i: u32,
    seeds: usize,
    to: usize,
    memory: &mut [u8],
) -> u32
    requires { Known s.now z × ((inst.parties ≤ 64) × ((i < inst.parties) × ((seeds + 32 * inst.parties ≤ to) × (to + inst.parties * oct (z.inputs + 2 * z.ands) ≤ length memory.old)))) }
    ensures { (0 < result) × ((i + result ≤ inst.parties) × (memory.new ≡ sets memory.old (to + i * oct (z.inputs + 2 * z.ands)) (flatten (tabulate result (λ k. tape_but (circuit_of s.now) inst.parties p inst.context (take (32 * inst.parties) (drop seeds memory.old)) (i + k)))))) }
{
    let j = inst.context;
    let n = inst.parties;
    let inputs = z.inputs;
    let ands = z.ands;
    let len = bits::oct(inputs + 2 * ands);
    let k = i as usize;
    let seed = seeds + 32 * k;
    let a = to + k * len;
    if i == p {
        let end = a + len;
        clear(&mut memory[a..end]);
        return 1;
    }
    if four_without(i, n, p) {
        let used = four_used(inputs, ands, n as usize, k);
        four_tapes_at(j, i, seed, used, a, len, memory);
        return 4;
    }
    let used = used_bits(inputs, ands, n as usize, k);
    tape_at(j, i, seed, used, a, len, memory);
    1
}

// The tape row of each party but p (n for none), from its seed, as rows from byte `to` of the memory on.
fn tape_rows(s: &[u8], z: Sizes, inst: Instance, p: u32, seeds: usize, to: usize, memory: &mut [u8])
    requires { Known s.now z × ((inst.parties ≤ 64) × ((seeds + 32 * inst.parties ≤ to) × (to + inst.parties * oct (z.inputs + 2 * z.ands) ≤ length memory.old))) }
    ensures { memory.new ≡ sets memory.old to (tapes_but (circuit_of s.now) inst.parties p inst.context (take (32 * inst.parties) (drop seeds memory.old))) }
{
    let n = inst.parties;
    let mut i = 0;
    // one step or four, as the callee answers: no range
    while i < n {
        i += next_tapes(s, z, inst, p, i, seeds, to, memory);
    }
}

// Brings the seeds and the tapes of all parties into the memory, from the master.
pub(crate) fn hold_parties(s: &[u8], z: Sizes, inst: Instance, master: &[u8], memory: &mut [u8])
    requires { Lent s.now z inst.parties inst.height memory.old × (length master.now ≡ 16) }
    ensures memory_after { seeds_held z inst.parties memory.new ≡ master_seeds inst.parties inst.context master.now }
    ensures memory_after_2 { tapes_held z inst.parties memory.new ≡ master_tapes (circuit_of s.now) inst.parties inst.context master.now }
{
    let j = inst.context;
    let n = inst.parties;
    let h = inst.height;
    let l = layout(z);
    let k = n as usize;
    let leaves = leaves_at(l, k);
    let end = leaves + 16 * k;
    let seeds = seeds_at(l);
    let rows = rows_at(l);
    leaves_below(j, 1, h, master, &mut memory[leaves..end]);
    seed_rows(inst, n, leaves, seeds, memory);
    tape_rows(s, z, inst, n, seeds, rows, memory);
}

// The same of all parties but p, from an opening: party p's seed and tape are not derived, their rows are zero.
pub(crate) fn hold_opened(
    s: &[u8],
    z: Sizes,
    inst: Instance,
    p: u32,
    siblings: &[u8],
    memory: &mut [u8],
)
    requires { Lent s.now z inst.parties inst.height memory.old × ((p < inst.parties) × (length siblings.now ≡ 16 * inst.height)) }
    ensures memory_after { seeds_held z inst.parties memory.new ≡ seeds_but inst.parties p inst.context (opened_below inst.context inst.height 1 p siblings.now) }
    ensures memory_after_2 { tapes_held z inst.parties memory.new ≡ tapes_but (circuit_of s.now) inst.parties p inst.context (seeds_but inst.parties p inst.context (opened_below inst.context inst.height 1 p siblings.now)) }
{
    let j = inst.context;
    let n = inst.parties;
    let h = inst.height;
    let l = layout(z);
    let k = n as usize;
    let leaves = leaves_at(l, k);
    let end = leaves + 16 * k;
    let seeds = seeds_at(l);
    let rows = rows_at(l);
    opened_below(j, 1, h, p, siblings, &mut memory[leaves..end]);
    seed_rows(inst, p, leaves, seeds, memory);
    tape_rows(s, z, inst, p, seeds, rows, memory);
}
