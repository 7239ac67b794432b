// The shelf of prepared roots: a page in the host's cache, stocked and drawn from.
#![tactic(auto)]

ghost use Rattle.std.specs.Prelude.{◌≡◌, []};
ghost use Rattle.shelf.specs.Operations.{stock_op, draw_op, outcome, draw_outcome};

use refusal::Refusal;
use shelf_page::{check, slot_at};
use shelf_slots::{move_after, put_heads, put_slot, take_root};

// Stocks a root: into the first spare slot, which goes to the front of ready.
pub fn stock(page: &mut [u8], root: &[u8]) -> Result<(), Refusal>
    ensures { outcome result [] page.new ≡ stock_op page.old root.now }
{
    let Some(shelf) = check(page) else {
        return Err(Refusal::Shelf);
    };
    if root.len() != 16 {
        return Err(Refusal::BufferLength);
    }
    let slot = shelf.spare as usize;
    if slot == 0 {
        return Err(Refusal::Full);
    }
    let next = bits::read_u16(page, slot_at(slot));
    put_slot(page, slot, shelf.ready, root);
    put_heads(page, shelf.spare, next);
    Ok(())
}

// Draws the first ready root, whose slot goes to the front of spare. `count` is the count of the host's log.
pub fn draw(page: &mut [u8], count: u64) -> Result<[u8; 16], Refusal>
    ensures { draw_outcome result page.new ≡ draw_op page.old count }
{
    let Some(shelf) = check(page) else {
        return Err(Refusal::Shelf);
    };
    let draws = shelf.draws;
    let due = draws as u64;
    let first = shelf.ready as usize;
    if count != due {
        return Err(Refusal::Count);
    }
    if first == 0 {
        return Err(Refusal::Empty);
    }
    if draws == 4294967295 {
        return Err(Refusal::Exhausted);
    }
    let at = slot_at(first);
    let next = bits::read_u16(page, at);
    let root = take_root(page, at + 2);
    let zero = [0u8; 16];
    move_after(page, 0, shelf.ready, next, &zero);
    bits::write_u32(page, 8, draws + 1);
    Ok(root)
}
