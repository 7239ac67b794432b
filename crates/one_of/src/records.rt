// The gate records of the new circuit.
ghost use Rattle.std.specs.Prelude.{◌≡◌, cond, ◌+◌, ◌*◌, ◌≤◌, ◌<◌, ltb};
ghost use Rattle.circuit.specs.File.{fields_of, max_inputs, max_gates};
ghost use Rattle.circuit.specs.Steps.{Laid};
ghost use Rattle.one_of.specs.OneOf.{entries, added, sum_wire, literal, prefix, entry_gate, new_gate, relinked, old_gate, slot_of};
ghost use Rattle.one_of.specs.Steps.{as_four, Given};

use crate::Record;
use crate::list::repeated;
use circuit::records::field;
use circuit::{Sizes, WIDTH};

// The wire that is 1 if the output is one of the first e entries.
fn sum_wire(z: Sizes, e: usize) -> usize
    requires { (z.inputs ≤ max_inputs) × (z.gates + added z.outputs e ≤ max_gates) }
    ensures { result ≡ z.inputs + z.gates + z.outputs + e * z.outputs }
{
    z.inputs + z.gates + z.outputs + e * z.outputs
}

// The wire that is 1 if output bit j is that of entry e.
fn literal(s: &[u8], list: &[u8], z: Sizes, e: usize, j: usize) -> u32
    requires { Given s.now list.now z × ((e < entries z.outputs list.now) × (j < z.outputs)) }
    ensures { result ≡ literal (fields_of s.now) list.now e j }
{
    let len = bits::oct(z.outputs);
    let entry = bits::row(list, len, e);
    let b = bits::bit(entry, j);
    if b == 1 {
        return field(s, WIDTH, 4 + j);
    }
    (z.inputs + z.gates + j) as u32
}

// The wire that is 1 if the first j + 1 output bits are those of entry e.
fn prefix(s: &[u8], list: &[u8], z: Sizes, e: usize, j: usize) -> u32
    requires { Given s.now list.now z × ((e < entries z.outputs list.now) × (j < z.outputs)) }
    ensures { result ≡ prefix (fields_of s.now) list.now e j }
{
    if j == 0 {
        return literal(s, list, z, e, 0);
    }
    (sum_wire(z, e) + j) as u32
}

// Gate j of entry e.
fn entry_record(s: &[u8], list: &[u8], z: Sizes, e: usize, j: usize, next: u32) -> Record
    requires { Given s.now list.now z × ((e < entries z.outputs list.now) × (j < z.outputs)) }
    ensures { as_four result ≡ entry_gate (fields_of s.now) list.now e j next }
{
    let zero = (z.inputs + z.gates + z.outputs) as u32;
    let sum = sum_wire(z, e) as u32;
    let again = repeated(list, z.outputs, e);
    let first = prefix(s, list, z, e, j);
    if again {
        return Record {
            kind: 1,
            a: sum,
            b: zero,
            next,
        };
    }
    if j + 1 < z.outputs {
        let wire = literal(s, list, z, e, j + 1);
        return Record {
            kind: 2,
            a: first,
            b: wire,
            next,
        };
    }
    Record {
        kind: 1,
        a: sum,
        b: first,
        next,
    }
}

// Gate i of those that are added.
fn new_record(s: &[u8], list: &[u8], z: Sizes, i: usize, next: u32) -> Record
    requires { Given s.now list.now z × (i < added z.outputs (entries z.outputs list.now)) }
    ensures { as_four result ≡ new_gate (fields_of s.now) list.now i next }
{
    if i < z.outputs {
        let wire = field(s, WIDTH, 4 + i);
        return Record {
            kind: 3,
            a: wire,
            b: 0,
            next,
        };
    }
    if i == z.outputs {
        return Record {
            kind: 1,
            a: 0,
            b: 0,
            next,
        };
    }
    let t = i - z.outputs - 1;
    entry_record(s, list, z, t / z.outputs, t % z.outputs, next)
}

// A link of the old chain; the one that ends it leads to the first slot that is added.
pub(crate) fn relinked(s: &[u8], z: Sizes, link: u32) -> u32
    requires { Laid s.now z.inputs z.outputs z.gates }
    ensures { result ≡ relinked (fields_of s.now) link }
{
    if link == 0 {
        return (z.gates + 1) as u32;
    }
    link
}

// The record of an old slot.
fn old_record(s: &[u8], z: Sizes, k: usize) -> Record
    requires { Laid s.now z.inputs z.outputs z.gates × ((1 ≤ k) × (k ≤ z.gates)) }
    ensures { as_four result ≡ old_gate (fields_of s.now) k }
{
    let at = 4 + z.outputs + 4 * (k - 1);
    let kind = field(s, WIDTH, at);
    let a = field(s, WIDTH, at + 1);
    let b = field(s, WIDTH, at + 2);
    let next = relinked(s, z, field(s, WIDTH, at + 3));
    Record { kind, a, b, next }
}

// The link of a slot that is added: the next slot, or the end.
fn onward(total: usize, k: usize) -> u32
    requires { total ≤ max_gates }
    ensures { result ≡ cond (ltb k total) (k + 1) 0 }
{
    if k < total {
        return (k + 1) as u32;
    }
    0
}

// The record of slot k of the new file, which has `total` gates.
pub(crate) fn slot_record(s: &[u8], list: &[u8], z: Sizes, total: usize, k: usize) -> Record
    requires { Given s.now list.now z × ((total ≡ z.gates + added z.outputs (entries z.outputs list.now)) × ((1 ≤ k) × (k ≤ total))) }
    ensures { as_four result ≡ slot_of (fields_of s.now) list.now k }
{
    if k <= z.gates {
        return old_record(s, z, k);
    }
    let next = onward(total, k);
    new_record(s, list, z, k - z.gates - 1, next)
}
