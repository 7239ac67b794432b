// The master of one instance, by the path from the opened node above its leaf.
ghost use Rattle.std.specs.Prelude.{◌≡◌, cond, suc, ◌+◌, ◌*◌, ◌^◌, ◌≤◌, ◌<◌, length, replicate};
ghost use Rattle.cover.specs.Masters.{height as «height-of», child_of, from_above};
ghost use Rattle.cover.specs.Steps.{opened_by, cover_by};

use bits::row;
use cover::{height, leaves};
use growing::{is_opened, opened_before};
use hashing::Context;
use tree::children;

// Node x of a tree, from its parent's value.
fn child(x: usize, value: [u8; 16], tree: Context) -> [u8; 16]
    requires { x < 65536 }
    ensures { result ≡ child_of tree x value }
{
    let mut pair = [0u8; 32];
    children(tree, (x / 2) as u32, &value, &mut pair);
    let mut out = [0u8; 16];
    out.copy_from_slice(row(&pair, 16, x % 2));
    out
}

// Node x from the values of the opened nodes, of which one stands at or above it, less than d levels up; zeros where none does.
fn from_above(marks: &[u8], values: &[u8], d: u32, x: usize, tree: Context) -> [u8; 16]
    requires { (length values.now ≡ 16 * length (cover_by marks.now)) × ((x < length marks.now) × (length marks.now ≤ 1024)) }
    ensures { result ≡ from_above (opened_by marks.now) (child_of tree) values.now d x }
{
    let mut out = [0u8; 16];
    if d == 0 {
        return out;
    }
    if is_opened(marks, x) {
        let n = opened_before(marks, x);
        out.copy_from_slice(row(values, 16, n));
        return out;
    }
    child(x, from_above(marks, values, d - 1, x / 2, tree), tree)
}

// The master of instance j of m, from the values of the opened nodes; zeros where it is chosen.
pub(crate) fn master_of(
    m: u32,
    marks: &[u8],
    values: &[u8],
    j: u32,
    chosen: bool,
    tree: Context,
) -> [u8; 16]
    requires { (m ≤ 512) × ((j < m) × ((length marks.now ≡ 2 ^ suc («height-of» m)) × (length values.now ≡ 16 * length (cover_by marks.now)))) }
    ensures { result ≡ cond chosen (replicate 16 0) (from_above (opened_by marks.now) (child_of tree) values.now (suc («height-of» m)) (2 ^ «height-of» m + j)) }
{
    if chosen {
        return [0u8; 16];
    }
    let h = height(m);
    let x = leaves(h) + j as usize;
    from_above(marks, values, h + 1, x, tree)
}
