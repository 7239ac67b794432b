// Converting a text to a circuit file.
ghost use Rattle.std.specs.Prelude.{◌≡◌};
ghost use Rattle.std.proofs.Math.Option.{none};
ghost use Rattle.bristol.specs.Operations.{conversion, convert_op};
ghost use Rattle.bristol.specs.Answers.{outcome};
ghost use Rattle.bristol_lines.specs.Steps.{Few, gates_at, refusal_of};

use crate::walk::check_gates;
use crate::writing::write_file;
use bristol_lines::Sizes;
use bristol_lines::heading::read_header;
use bristol_text::Cursor;
use circuit::records::record_place;
use refusal::Refusal;

// Writes the file of a text whose lines are all good, if the output is long enough.
fn convert_good(text: &[u8], z: Sizes, c: Cursor, out: &mut [u8]) -> Result<usize, Refusal>
    requires { Few z × (refusal_of (gates_at text.now z c.at) ≡ none) }
    ensures { outcome result out.new ≡ conversion (gates_at text.now z c.at) out.old }
{
    let size = record_place(z.outputs, z.gates);
    if out.len() < size {
        return Err(Refusal::BufferLength);
    }
    write_file(text, z, c, out);
    Ok(size)
}

// Tests the gate lines below a good header, and writes the file.
fn convert_gates(text: &[u8], z: Sizes, c: Cursor, out: &mut [u8]) -> Result<usize, Refusal>
    requires { Few z }
    ensures { outcome result out.new ≡ conversion (gates_at text.now z c.at) out.old }
{
    check_gates(text, z, c)?;
    convert_good(text, z, c, out)
}

// Converts a text to a circuit file in the lent output: the file's length, or the first refusal. A refusal leaves the output as it was.
pub fn convert(text: &[u8], out: &mut [u8]) -> Result<usize, Refusal>
    ensures { outcome result out.new ≡ convert_op text.now out.old }
{
    let (z, c) = read_header(text)?;
    convert_gates(text, z, c, out)
}
