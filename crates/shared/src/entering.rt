// The tests of an entry: where the inputs of the proof lie, and the bytes at them.
ghost use Rattle.std.specs.Prelude.{◌≡◌, true, ◌+◌, ◌≤◌, ◌<◌, length};
ghost use Rattle.shared.specs.Service.{inside as «inside-def», all_inside, at, entry_at};
ghost use Rattle.shared.specs.StateSteps.{refusal_of};
ghost use Rattle.shared.specs.Steps.{Looking};

use crate::{Place, Places};
use proof_tests::{Shape, test_lent};
use reading::read;
use refusal::Refusal;

// The bytes of the work buffer.
pub const SHARED_WORK: usize = 6436864;

// Whether a place lies wholly inside the buffer.
fn inside(buffer: &[u8], p: Place) -> bool
    ensures { result ≡ «inside-def» buffer.now p }
{
    let n = buffer.len();
    p.start <= n && p.len <= n - p.start
}

// Whether all places do.
pub fn all_inside(buffer: &[u8], p: Places) -> bool
    ensures { result ≡ all_inside buffer.now p }
{
    inside(buffer, p.circuit)
        && inside(buffer, p.y)
        && inside(buffer, p.message)
        && inside(buffer, p.proof)
}

// The bytes at a place.
pub fn part(buffer: &[u8], p: Place) -> &[u8]
    requires { p.start + p.len ≤ length buffer.now }
    ensures { result.now ≡ at buffer.now p }
{
    let a = p.start;
    &buffer[a..a + p.len]
}

// Tests the bytes at places inside the buffer: the shape of a proof that passes. A table for 512 instances and marks for 1,024 nodes are lent.
pub fn look(buffer: &[u8], p: Places, table: &mut [u8], marks: &mut [u8]) -> Result<Shape, Refusal>
    requires { (all_inside buffer.now p ≡ true) × ((length table.old ≡ 512) × (length marks.old ≡ 1024)) }
    ensures result_value { refusal_of result ≡ entry_at buffer.now p }
    ensures looking { Looking result buffer.now p table.new marks.new }
{
    let s = part(buffer, p.circuit);
    let y = part(buffer, p.y);
    let message = part(buffer, p.message);
    let proof = part(buffer, p.proof);
    let z = read(s)?;
    test_lent(s, z, y, message, proof, table, marks)
}
