// The nodes of the tree over the masters: their marks, those that are opened for a set of hidden leaves, and the nodes that follow from these.
#![tactic(auto)]

ghost use Rattle.std.specs.Prelude.{◌≡◌, suc, ◌+◌, ◌*◌, ◌^◌, ◌≤◌, ◌<◌, length, replicate};
ghost use mathlib.Core.List.{◌++◌, map, flatten};
ghost use Rattle.bits.specs.Bytes.{row_of};
ghost use Rattle.tree.specs.Tree.{children as «children-of»};
ghost use Rattle.cover.specs.Cover.{those};
ghost use Rattle.cover.specs.Masters.{child_of};
ghost use Rattle.cover.specs.Steps.{hidden_by, marks_of, leaf_mark, node_mark, opened_by, cover_by, nodes_of, put_row, given_by, follow_of};
ghost use Rattle.growing.specs.Steps.{spreads, shown_from};

use bits::{clear, copy, row};
use cover::leaves;
use hashing::Context;
use tree::{children, four_children};

// The mark of leaf i, from its entry in the table.
fn leaf_mark(table: &[u8], none: u8, m: usize, i: usize) -> u8
    requires { m ≤ length table.now }
    ensures { result ≡ leaf_mark table.now none m i }
{
    if i >= m {
        return 0;
    }
    if table[i] == none { 1 } else { 2 }
}

// The mark of node k, from its leaf's entry or from its children's marks.
fn node_mark(table: &[u8], none: u8, m: usize, leaves: usize, marks: &[u8], k: usize) -> u8
    requires { (m ≤ length table.now) × ((length marks.now ≡ 2 * leaves) × (k < length marks.now)) }
    ensures { result ≡ node_mark table.now none m leaves marks.now k }
{
    if k >= leaves {
        return leaf_mark(table, none, m, k - leaves);
    }
    if k == 0 {
        return 0;
    }
    marks[2 * k] | marks[2 * k + 1]
}

// The marks of all nodes of a tree of height h, the last first. Of the first m leaves those are hidden whose entry in the table is not
// the one that stands for none.
pub fn mark(h: u32, table: &[u8], none: u8, m: usize, marks: &mut [u8])
    requires { (m ≤ length table.now) × (length marks.old ≡ 2 ^ suc h) }
    ensures { marks.new ≡ marks_of h m (hidden_by table.now none) }
{
    let leaves = marks.len() / 2;
    for k in (0..marks.len()).rev() {
        marks[k] = node_mark(table, none, m, leaves, marks, k);
    }
}

// Whether node k is opened.
pub fn is_opened(marks: &[u8], k: usize) -> bool
    requires { k < length marks.now }
    ensures { result ≡ opened_by marks.now k }
{
    marks[k] == 1 && marks[k / 2] >= 2
}

// The number of opened nodes below n.
pub fn opened_before(marks: &[u8], n: usize) -> usize
    requires { n ≤ length marks.now }
    ensures { result ≡ length (those n (opened_by marks.now)) }
{
    let mut r: usize = 0;
    for k in 0..n {
        r += is_opened(marks, k) as usize;
    }
    r
}

// The first two rows: zeros, and the root.
fn put_root(root: &[u8], nodes: &mut [u8])
    requires { (length root.now ≡ 16) × (32 ≤ length nodes.old) }
    ensures { nodes.new ≡ put_row 32 nodes.old 0 (replicate 16 0 ++ root.now) }
{
    clear(&mut nodes[..16]);
    copy(root, &mut nodes[16..32]);
}

// The two nodes below node k, in their rows.
fn spread(j: Context, k: usize, nodes: &mut [u8])
    requires { (1 ≤ k) × ((k < 32768) × (k * 32 + 32 ≤ length nodes.old)) }
    ensures { nodes.new ≡ put_row 32 nodes.old k («children-of» j k (row_of nodes.old 16 k)) }
{
    let mut value = [0u8; 16];
    copy(row(nodes, 16, k), &mut value);
    let a = k * 32;
    let e = a + 32;
    children(j, k as u32, &value, &mut nodes[a..e]);
}

// The eight nodes below nodes k to k + 3, in their rows: none of these is one of the four.
fn four_spread(j: Context, k: usize, nodes: &mut [u8])
    requires { (4 ≤ k) × ((k + 3 < 32768) × (k * 32 + 128 ≤ length nodes.old)) }
    ensures { nodes.new ≡ spreads 4 j k nodes.old }
{
    let mut values = [0u8; 64];
    let from = k * 16;
    let to = from + 64;
    copy(&nodes[from..to], &mut values);
    let a = k * 32;
    let e = a + 128;
    four_children(j, k as u32, &values, &mut nodes[a..e]);
}

// The nodes of a tree of height h, each in its row.
pub fn grow(j: Context, h: u32, root: &[u8], nodes: &mut [u8])
    requires { (h ≤ 15) × ((length root.now ≡ 16) × (length nodes.old ≡ 16 * 2 ^ suc h)) }
    ensures { nodes.new ≡ nodes_of (child_of j) root.now h }
{
    put_root(root, nodes);
    let end = leaves(h);
    let mut k: usize = 1;
    // The step is 4 or 1, so this is no `for`.
    while k < end {
        if k >= 4 && end - k >= 4 {
            four_spread(j, k, nodes);
            k += 4;
        } else {
            spread(j, k, nodes);
            k += 1;
        }
    }
}

// The values of the opened nodes, ascending, from those of all nodes.
pub fn gather(marks: &[u8], nodes: &[u8], out: &mut [u8])
    requires { (length nodes.now ≡ 16 * length marks.now) × (length out.old ≡ 16 * length (cover_by marks.now)) }
    ensures { out.new ≡ flatten (map (row_of nodes.now 16) (cover_by marks.now)) }
{
    let mut at: usize = 0;
    for k in 0..marks.len() {
        if is_opened(marks, k) {
            copy(row(nodes, 16, k), &mut out[at..at + 16]);
            at += 16;
        }
    }
}

// Node x from the values of the opened nodes: number n of these if it is opened, else zeros. The number of the next value.
fn take_value(marks: &[u8], x: usize, values: &[u8], n: usize, out: &mut [u8]) -> usize
    requires { (x < length marks.now) × ((length values.now ≡ 16 * length (cover_by marks.now)) × ((n ≡ length (those x (opened_by marks.now))) × (length out.old ≡ 16))) }
    ensures { (result ≡ length (those (suc x) (opened_by marks.now))) × (out.new ≡ given_by marks.now values.now x) }
{
    if is_opened(marks, x) {
        copy(row(values, 16, n), out);
        return n + 1;
    }
    clear(out);
    n
}

// The two nodes below node k: by the node rule where it has unhidden leaves alone, else from the values of the opened nodes, of which n
// came before. The number of the next value.
fn follow_pair(
    j: Context,
    k: usize,
    marks: &[u8],
    value: &[u8],
    values: &[u8],
    n: usize,
    out: &mut [u8],
) -> usize
    requires { ((1 ≤ k) × ((k < 32768) × (2 * k + 1 < length marks.now))) × ((length values.now ≡ 16 * length (cover_by marks.now)) × ((n ≡ length (those (2 * k) (opened_by marks.now))) × (length out.old ≡ 32))) }
    ensures { (result ≡ length (those (2 * k + 2) (opened_by marks.now))) × (out.new ≡ follow_of j marks.now values.now (2 * k) value.now ++ follow_of j marks.now values.now (2 * k + 1) value.now) }
{
    if marks[k] == 1 {
        children(j, k as u32, value, out);
        return n;
    }
    let m = take_value(marks, 2 * k, values, n, &mut out[..16]);
    take_value(marks, 2 * k + 1, values, m, &mut out[16..])
}

// The two nodes below node k, in their rows. The number of the next value.
fn follow(j: Context, k: usize, marks: &[u8], values: &[u8], n: usize, nodes: &mut [u8]) -> usize
    requires { ((1 ≤ k) × ((k < 32768) × (2 * k + 1 < length marks.now))) × ((length values.now ≡ 16 * length (cover_by marks.now)) × ((n ≡ length (those (2 * k) (opened_by marks.now))) × (k * 32 + 32 ≤ length nodes.old))) }
    ensures { (result ≡ length (those (2 * k + 2) (opened_by marks.now))) × (nodes.new ≡ put_row 32 nodes.old k (follow_of j marks.now values.now (2 * k) (row_of nodes.old 16 k) ++ follow_of j marks.now values.now (2 * k + 1) (row_of nodes.old 16 k))) }
{
    let mut value = [0u8; 16];
    copy(row(nodes, 16, k), &mut value);
    let a = k * 32;
    let e = a + 32;
    follow_pair(j, k, marks, &value, values, n, &mut nodes[a..e])
}

// Whether nodes k to k + 3 have unhidden leaves alone.
fn four_shown(marks: &[u8], k: usize) -> bool
    requires { k + 3 < length marks.now }
    ensures { result ≡ shown_from 4 marks.now k }
{
    // Written with `&&` the proof did not close: what was left is what the joins of the tests return.
    if marks[k] != 1 {
        return false;
    }
    if marks[k + 1] != 1 {
        return false;
    }
    if marks[k + 2] != 1 {
        return false;
    }
    marks[k + 3] == 1
}

// The nodes that follow from the values of the opened nodes, each in its row, with zeros in the others.
pub fn regrow(j: Context, h: u32, marks: &[u8], values: &[u8], nodes: &mut [u8])
    requires { ((h ≤ 15) × (length marks.now ≡ 2 ^ suc h)) × ((length values.now ≡ 16 * length (cover_by marks.now)) × (length nodes.old ≡ 16 * 2 ^ suc h)) }
    ensures { nodes.new ≡ nodes_of (follow_of j marks.now values.now) (replicate 16 0) h }
{
    let none = [0u8; 16];
    put_root(&none, nodes);
    let end = leaves(h);
    let mut n = opened_before(marks, 2);
    let mut k: usize = 1;
    // The step is 4 or 1, so this is no `for`.
    while k < end {
        if k >= 4 && end - k >= 4 && four_shown(marks, k) {
            four_spread(j, k, nodes);
            k += 4;
        } else {
            n = follow(j, k, marks, values, n, nodes);
            k += 1;
        }
    }
}
