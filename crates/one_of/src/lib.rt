// A circuit whose one output is 1 exactly if the output of another is in a list. docs/one-of.md has its gates.
#![tactic(auto)]

ghost use Rattle.std.specs.Prelude.{◌≡◌, [], ◌∷◌, ◌≤◌};
ghost use Rattle.std.proofs.lemmas.List.Edits.{sets};
ghost use Rattle.circuit.specs.Building.{builds};
ghost use Rattle.circuit.specs.File.{circuit_of};
ghost use Rattle.circuit.specs.Steps.{Laid, Legal};
ghost use Rattle.refusal.specs.Outcome.{unless};
ghost use Rattle.one_of.specs.Answers.{outcome};
ghost use Rattle.one_of.specs.OneOf.{entries, max_entries, room_for, one_of_file, one_of_legal, one_of_op};
ghost use Rattle.one_of.specs.Steps.{Room};

mod list;
mod records;

use crate::list::unused_entries;
use crate::records::{relinked, slot_record};
use building::write_four;
use circuit::records::field;
use circuit::{MAX_GATES, Sizes, WIDTH};
use reading::read;
use refusal::Refusal;

// The most entries of a list.
pub const MAX_ENTRIES: usize = 16;

// The fields of a gate record. Its kind is a number, as all four are the fields of the file as written: those of an old slot are copied.
#[derive(Clone, Copy)]
pub(crate) struct Record {
    pub kind: u32,
    pub a: u32,
    pub b: u32,
    pub next: u32,
}

// Writes the new file, of `total` gates.
fn write_file(s: &[u8], list: &[u8], z: Sizes, total: usize, out: &mut [u8])
    requires { Room s.now list.now z total out.old }
    ensures { out.new ≡ sets out.old 0 (one_of_file s.now list.now) }
{
    let head = relinked(s, z, field(s, WIDTH, 3));
    write_four(out, 0, z.inputs as u32, 1, total as u32, head);
    bits::write_u32(out, 4 * WIDTH, (z.inputs + total - 1) as u32);
    for k in 0..total {
        let r = slot_record(s, list, z, total, k + 1);
        write_four(out, 5 + 4 * k, r.kind, r.a, r.b, r.next);
    }
}

// Builds from a legal circuit and n good entries, if there is room for the gates and in the output.
fn build(s: &[u8], list: &[u8], z: Sizes, n: usize, out: &mut [u8]) -> Result<usize, Refusal>
    requires { Laid s.now z.inputs z.outputs z.gates × ((1 ≤ z.outputs) × ((1 ≤ n) × ((n ≤ max_entries) × (n ≡ entries z.outputs list.now)))) }
    ensures { outcome result out.new ≡ unless (room_for z.gates z.outputs n) 2 (out.old ∷ []) (builds (one_of_file s.now list.now) out.old) }
{
    if MAX_GATES < z.gates + z.outputs + n * (z.outputs + 1) {
        return Err(Refusal::Limits);
    }
    let total = z.gates + z.outputs + 1 + n * z.outputs;
    let size = WIDTH * (5 + 4 * total);
    if out.len() < size {
        return Err(Refusal::BufferLength);
    }
    write_file(s, list, z, total, out);
    Ok(size)
}

// Builds from a legal circuit: the tests of the list come first.
fn one_of_legal(s: &[u8], list: &[u8], z: Sizes, out: &mut [u8]) -> Result<usize, Refusal>
    requires { Legal s.now z.inputs z.outputs z.gates × (1 ≤ z.outputs) }
    ensures { outcome result out.new ≡ one_of_legal s.now list.now out.old (circuit_of s.now) }
{
    let len = bits::oct(z.outputs);
    if list.len() < 1 {
        return Err(Refusal::ListLength);
    }
    if MAX_ENTRIES * len < list.len() {
        return Err(Refusal::ListLength);
    }
    if list.len() % len != 0 {
        return Err(Refusal::BufferLength);
    }
    let n = list.len() / len;
    if !unused_entries(list, z.outputs, n) {
        return Err(Refusal::UnusedBits);
    }
    build(s, list, z, n, out)
}

// Builds the circuit with one output, 1 exactly if the output of the circuit s is in the list, into the lent output: its file's length,
// or a refusal, which leaves the output as it was.
pub fn one_of(s: &[u8], list: &[u8], out: &mut [u8]) -> Result<usize, Refusal>
    ensures { outcome result out.new ≡ one_of_op s.now list.now out.old }
{
    let z = read(s)?;
    one_of_legal(s, list, z, out)
}
