// A circuit file built from its parts: its definition and laws, and four fields written at once.
#![tactic(auto)]

ghost use Rattle.std.specs.Prelude.{◌≡◌, ◌+◌, ◌*◌, ◌≤◌, length};
ghost use Rattle.std.proofs.lemmas.List.Edits.{sets};
ghost use Rattle.circuit.specs.File.{width};
ghost use Rattle.building.specs.Steps.{four_bytes};

use circuit::WIDTH;

// Writes four fields, the first at field k.
pub fn write_four(out: &mut [u8], k: usize, a: u32, b: u32, c: u32, d: u32)
    requires { width * (k + 4) ≤ length out.old }
    ensures { out.new ≡ sets out.old (width * k) (four_bytes a b c d) }
{
    let at = WIDTH * k;
    bits::write_u32(out, at, a);
    bits::write_u32(out, at + WIDTH, b);
    bits::write_u32(out, at + 2 * WIDTH, c);
    bits::write_u32(out, at + 3 * WIDTH, d);
}
