// The walk along the gates with one mask a wire, and the corrections that it makes.
ghost use Rattle.std.specs.Prelude.{◌≡◌, ◌+◌, ◌*◌, ◌≤◌, length, take, drop};
ghost use Rattle.std.proofs.lemmas.List.Edits.{sets};
ghost use Rattle.bits.specs.Bits.{oct};
ghost use Rattle.circuit.specs.Steps.{and_one};
ghost use Rattle.masks.specs.Steps.{masks_from, products_from, loaded, carried, Asks, passed, byte_after, walked, made, Ready, Lent, worked, rows_from, corrections_of};

use crate::rows::{add_rows, clear_part};
use circuit::records::record;
use circuit::{Gate, Sizes};

// Gives the input wires their masks, and zero to the other wires.
fn load_inputs(memory: &mut [u8], wires: usize, inputs: usize)
    requires { (inputs ≤ wires) × ((wires ≤ 1048576) × (8 * wires + inputs ≤ 8 * length memory.old)) }
    ensures { memory.new ≡ loaded wires inputs memory.old }
{
    clear_part(memory, 0, wires);
    for k in 0..inputs {
        memory[k] = bits::bit(memory, 8 * wires + k);
    }
}

// What a gate leaves beside the memory: the AND gates passed, and the byte that the next correction comes into.
#[derive(Clone, Copy)]
struct Passed {
    ands: usize,
    byte: u8,
}

// The byte that correction t comes into: a new one where those before it end one.
fn carried(t: usize, byte: u8) -> u8
    ensures { result ≡ carried t byte }
{
    if t % 8 == 0 { 0 } else { byte }
}

// Gives wire `out` the mask of a gate's output. An AND gate takes bit k of the memory for it, and its correction, which has bit p, the XOR of
// its product shares, is put as bit t of those from byte `at` on: `byte` has the bits before it.
fn pass(
    memory: &mut [u8],
    gate: Gate,
    out: usize,
    k: usize,
    p: usize,
    at: usize,
    t: usize,
    byte: u8,
) -> Passed
    requires { Asks gate out k p at t byte memory.old }
    ensures memory_after { memory.new ≡ passed gate out k p (8 * at + t) memory.old }
    ensures ands_value { (result.ands ≡ t + and_one gate) × (result.byte ≡ byte_after p gate t memory.old byte) }
{
    match gate {
        Gate::Xor(a, b) => {
            memory[out] = memory[a] ^ memory[b];
            Passed { ands: t, byte }
        }
        Gate::And(a, b) => {
            let c = (memory[a] & memory[b]) ^ bits::bit(memory, p);
            let y = byte + ((c % 2) << ((t % 8) as u8));
            memory[at + t / 8] = y;
            memory[out] = bits::bit(memory, k);
            Passed {
                ands: t + 1,
                byte: carried(t + 1, y),
            }
        }
        Gate::Inv(a) => {
            memory[out] = memory[a];
            Passed { ands: t, byte }
        }
    }
}

// Walks the gates in chain order and puts the correction of each AND gate, as bits from byte `at` of the memory on.
fn walk(s: &[u8], z: Sizes, head: usize, at: usize, memory: &mut [u8])
    requires { Ready s.now z head at memory.old }
    ensures { memory.new ≡ sets (walked s.now (masks_from z) z.gates head 0 memory.old) at (made s.now (masks_from z) (products_from z) z.gates head 0 memory.old (take (oct z.ands) (drop at memory.old))) }
{
    let inputs = z.inputs;
    let outputs = z.outputs;
    let wires = inputs + z.gates;
    let masks = 8 * wires + inputs;
    let products = masks + z.ands;
    let mut slot = head;
    let mut t = 0;
    let mut byte: u8 = 0;
    for _ in 0..z.gates {
        let r = record(s, outputs, slot);
        let out = inputs + (slot - 1);
        let p = pass(memory, r.gate, out, masks + t, products + t, at, t, byte);
        t = p.ands;
        byte = p.byte;
        slot = r.next;
    }
}

// Makes the corrections of a legal file, at byte `at` of the memory, from the tape rows of n parties, which stand from byte a on.
pub fn make_corrections(s: &[u8], z: Sizes, n: usize, a: usize, at: usize, memory: &mut [u8])
    requires { Lent s.now z n a at memory.old }
    ensures { memory.new ≡ sets (worked s.now z n (rows_from z n a memory.old) memory.old) at (corrections_of s.now z n (rows_from z n a memory.old)) }
{
    let wires = z.inputs + z.gates;
    let len = bits::oct(z.inputs + 2 * z.ands);
    let size = bits::oct(z.ands);
    let head = circuit::records::head(s);
    add_rows(memory, a, len, n, wires);
    load_inputs(memory, wires, z.inputs);
    clear_part(memory, at, size);
    walk(s, z, head, at, memory);
}
