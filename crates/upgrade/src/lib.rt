// Circuit files of the old form, fields of 2 bytes and at most 4,096 gates, converted to the form in use.
#![tactic(auto)]

ghost use Rattle.std.specs.Prelude.{◌≡◌, true, ◌*◌, ◌≤◌, length};
ghost use Rattle.std.proofs.lemmas.List.Edits.{sets};
ghost use Rattle.circuit.specs.Building.{builds};
ghost use Rattle.circuit.specs.Fields.{right_length};
ghost use Rattle.circuit.specs.File.{width};
ghost use Rattle.upgrade.specs.Answers.{outcome};
ghost use Rattle.building.specs.Files.{bytes_of};
ghost use Rattle.upgrade.specs.Upgrade.{old_width, old_fields, upgraded, upgrade_op};

use circuit::records::field;
use circuit::{Fault, WIDTH};
use reading::read_with;
use refusal::Refusal;

// The old form: the bytes of a field, and the limit on G.
pub const OLD_WIDTH: usize = 2;

pub const OLD_GATES: usize = 4096;

// Writes the first n fields of a file of the old form in the form in use.
fn write_fields(old: &[u8], n: usize, out: &mut [u8])
    requires { (old_width * n ≤ length old.now) × (width * n ≤ length out.old) }
    ensures { out.new ≡ sets out.old 0 (bytes_of (old_fields old.now) n) }
{
    for k in 0..n {
        let x = field(old, OLD_WIDTH, k);
        bits::write_u32(out, WIDTH * k, x);
    }
}

// Writes the new file of a legal file of the old form, if the output is long enough.
fn upgrade_legal(old: &[u8], out: &mut [u8]) -> Result<usize, Fault>
    requires { right_length old_width old.now ≡ true }
    ensures { outcome result out.new ≡ builds (upgraded old.now) out.old }
{
    let n = old.len() / OLD_WIDTH;
    let size = WIDTH * n;
    if out.len() < size {
        return Err(Refusal::BufferLength.into());
    }
    write_fields(old, n, out);
    Ok(size)
}

// Converts a file of the old form into the lent output: the new file's length, or the old reading's refusal with the slot that it tells,
// or 6 for a short output. A refusal leaves the output as it was.
pub fn upgrade(old: &[u8], out: &mut [u8]) -> Result<usize, Fault>
    ensures { outcome result out.new ≡ upgrade_op old.now out.old }
{
    read_with(old, OLD_WIDTH, OLD_GATES)?;
    upgrade_legal(old, out)
}
