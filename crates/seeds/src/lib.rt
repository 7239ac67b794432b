// The operations on seeds: expand a tree, open it (document 01), derive a challenge, make the masters, open their tree (document 02, orders
// 1, 5 and 10).
#![tactic(auto)]

ghost use Rattle.std.specs.Prelude.{◌≡◌, true, suc, ◌*◌, ◌^◌, ◌≤◌, eqb, length};
ghost use mathlib.Core.List.{map, flatten, [], ◌∷◌};
ghost use Rattle.bits.specs.Bits.{bit_val, tabulate};
ghost use Rattle.bits.specs.Bytes.{row_of};
ghost use Rattle.refusal.specs.Outcome.{done, unless};
ghost use Rattle.cover.specs.Masters.{child_of, masters_context, master_of, cover_of, cover_bytes};
ghost use Rattle.cover.specs.Steps.{marks_of, cover_by, nodes_of};
ghost use Rattle.seeds.specs.Operations.{outcome, are_counts, statement_fits, is_tree_size, listed, are_leaves, expand_op, open_op, challenge_op, masters_op, cover_op};

use bits::{clear, copy, read_u16};
use choice::{MAX_INSTANCES, derive};
use cover::{leaves, masters_tree};
use growing::{gather, grow, mark, opened_before};
use hashing::{Context, salt_in};
use parties::height;
use refusal::Refusal;
use tree::{leaves_below, siblings_below};

// The limits on the bytes of a message, and on those of y, which hold 256 outputs.
pub const MAX_MESSAGE: usize = 4096;

pub const MAX_OUTPUT_BYTES: usize = 32;

// Expands the tree of instance j from its master into its n leaves.
pub fn expand(j: u32, n: u32, salt: &[u8], master: &[u8], leaves: &mut [u8]) -> Result<(), Refusal>
    ensures { outcome result leaves.new ≡ expand_op j n salt.now master.now leaves.old }
{
    if j > 65535 {
        return Err(Refusal::Parameter);
    }
    let Some(h) = height(n) else {
        return Err(Refusal::Parameter);
    };
    if salt.len() != 32 {
        return Err(Refusal::BufferLength);
    }
    if master.len() != 16 {
        return Err(Refusal::BufferLength);
    }
    if leaves.len() != 16 * (n as usize) {
        return Err(Refusal::BufferLength);
    }
    let context = Context {
        salt: salt_in(salt),
        number: j,
    };
    leaves_below(context, 1, h, master, leaves);
    Ok(())
}

// Opens all leaves but p of the tree of instance j: the siblings on the path to p, top first.
pub fn open(
    j: u32,
    n: u32,
    p: u32,
    salt: &[u8],
    master: &[u8],
    siblings: &mut [u8],
) -> Result<(), Refusal>
    ensures { outcome result siblings.new ≡ open_op j n p salt.now master.now siblings.old }
{
    if j > 65535 {
        return Err(Refusal::Parameter);
    }
    let Some(h) = height(n) else {
        return Err(Refusal::Parameter);
    };
    if p >= n {
        return Err(Refusal::Index);
    }
    if salt.len() != 32 {
        return Err(Refusal::BufferLength);
    }
    if master.len() != 16 {
        return Err(Refusal::BufferLength);
    }
    if siblings.len() != 16 * (h as usize) {
        return Err(Refusal::BufferLength);
    }
    let context = Context {
        salt: salt_in(salt),
        number: j,
    };
    siblings_below(context, 1, h, p, master, siblings);
    Ok(())
}

// Whether m instances with tau of them chosen are within the limits.
pub fn counts(m: u32, tau: u32) -> bool
    ensures { result ≡ are_counts m tau }
{
    2 <= m && ((m as usize) <= MAX_INSTANCES && (1 <= tau && tau < m))
}

// Whether h*, the salt and the digest have 32 bytes, y 1 to 32 and the message no more than a message may have.
fn statement_fits(hstar: &[u8], salt: &[u8], digest: &[u8], y: &[u8], message: &[u8]) -> bool
    ensures { result ≡ statement_fits hstar.now salt.now digest.now y.now message.now }
{
    hstar.len() == 32
        && (salt.len() == 32
            && (digest.len() == 32
                && (1 <= y.len() && (y.len() <= MAX_OUTPUT_BYTES && message.len() <= MAX_MESSAGE))))
}

// Derives the challenge: tau chosen instances, ascending, each with its hidden party. It is bound to the salt, the counts, the digest of the
// circuit file, y and the message.
pub fn challenge(
    m: u32,
    tau: u32,
    n: u32,
    hstar: &[u8],
    salt: &[u8],
    digest: &[u8],
    y: &[u8],
    message: &[u8],
    out: &mut [u8],
) -> Result<(), Refusal>
    ensures { outcome result out.new ≡ challenge_op m tau n hstar.now salt.now digest.now y.now message.now out.old }
{
    let fit = counts(m, tau);
    if !fit {
        return Err(Refusal::Parameter);
    }
    if height(n).is_none() {
        return Err(Refusal::Parameter);
    }
    let lent = statement_fits(hstar, salt, digest, y, message);
    if !lent {
        return Err(Refusal::BufferLength);
    }
    if out.len() != 3 * (tau as usize) {
        return Err(Refusal::BufferLength);
    }
    derive(
        m as usize,
        tau as usize,
        n as u8,
        hstar,
        salt,
        digest,
        y,
        message,
        out,
    );
    Ok(())
}

// Whether a tree may have m masters.
fn tree_size(m: u32) -> bool
    ensures { result ≡ is_tree_size m }
{
    2 <= m && (m as usize) <= MAX_INSTANCES
}

// The masters of m instances.
fn fill_masters(m: u32, salt: &[u8], root: &[u8], out: &mut [u8])
    requires { (m ≤ 512) × ((length salt.now ≡ 32) × ((length root.now ≡ 16) × (length out.old ≡ 16 * m))) }
    ensures { out.new ≡ flatten (tabulate m (master_of m salt.now root.now)) }
{
    let h = cover::height(m);
    let n = leaves(h);
    let mut nodes = [0u8; 16384];
    grow(masters_tree(salt_in(salt)), h, root, &mut nodes[..32 * n]);
    let a = 16 * n;
    let e = a + out.len();
    copy(&nodes[a..e], out);
}

// Makes the masters of m instances from the root.
pub fn masters(m: u32, salt: &[u8], root: &[u8], out: &mut [u8]) -> Result<(), Refusal>
    ensures { outcome result out.new ≡ masters_op m salt.now root.now out.old }
{
    let fit = tree_size(m);
    if !fit {
        return Err(Refusal::Parameter);
    }
    if salt.len() != 32 {
        return Err(Refusal::BufferLength);
    }
    if root.len() != 16 {
        return Err(Refusal::BufferLength);
    }
    if out.len() != 16 * (m as usize) {
        return Err(Refusal::BufferLength);
    }
    fill_masters(m, salt, root, out);
    Ok(())
}

// Whether any leaf is listed, and each one is below m.
fn are_leaves(m: u32, list: &[u8]) -> bool
    ensures { result ≡ are_leaves m list.now }
{
    let n = list.len() / 2;
    for k in 0..n {
        let leaf = read_u16(list, 2 * k);
        if (leaf as u32) >= m {
            return false;
        }
    }
    1 <= n
}

// A table with 1 at each listed leaf, and 0 at every other.
fn list_leaves(m: u32, list: &[u8], table: &mut [u8])
    requires { (are_leaves m list.now ≡ true) × (m ≤ length table.old) }
    ensures { table.new ≡ tabulate (length table.old) (λ i. bit_val (listed list.now i)) }
{
    clear(table);
    let n = list.len() / 2;
    for k in 0..n {
        let leaf = read_u16(list, 2 * k);
        table[leaf as usize] = 1;
    }
}

// The marks of the nodes of a tree over m masters, from the listed leaves.
fn mark_listed(m: u32, h: u32, list: &[u8], marks: &mut [u8])
    requires { (m ≤ 512) × ((are_leaves m list.now ≡ true) × (length marks.old ≡ 2 ^ suc h)) }
    ensures { marks.new ≡ marks_of h m (listed list.now) }
{
    let mut table = [0u8; MAX_INSTANCES];
    list_leaves(m, list, &mut table);
    mark(h, &table, 0, m as usize, marks);
}

// The values of the opened nodes, from the root.
fn open_nodes(h: u32, salt: &[u8], root: &[u8], marks: &[u8], out: &mut [u8])
    requires { ((h ≤ 9) × ((length salt.now ≡ 32) × (length root.now ≡ 16))) × ((length marks.now ≡ 2 ^ suc h) × (length out.old ≡ 16 * length (cover_by marks.now))) }
    ensures { out.new ≡ flatten (map (row_of (nodes_of (child_of (masters_context salt.now)) root.now h) 16) (cover_by marks.now)) }
{
    let mut nodes = [0u8; 16384];
    let end = 16 * marks.len();
    grow(masters_tree(salt_in(salt)), h, root, &mut nodes[..end]);
    gather(marks, &nodes[..end], out);
}

// Opens the tree over m masters, if the output has 16 bytes for each opened node.
fn open_listed(m: u32, list: &[u8], salt: &[u8], root: &[u8], out: &mut [u8]) -> Result<(), Refusal>
    requires { (m ≤ 512) × ((are_leaves m list.now ≡ true) × ((length salt.now ≡ 32) × (length root.now ≡ 16))) }
    ensures { outcome result out.new ≡ unless (eqb (length out.old) (cover_bytes m (listed list.now))) 6 (out.old ∷ []) (done (cover_of m (listed list.now) salt.now root.now ∷ [])) }
{
    let h = cover::height(m);
    let end = 2 * leaves(h);
    let mut marks = [0u8; 1024];
    mark_listed(m, h, list, &mut marks[..end]);
    let n = opened_before(&marks[..end], end);
    if out.len() != 16 * n {
        return Err(Refusal::BufferLength);
    }
    open_nodes(h, salt, root, &marks[..end], out);
    Ok(())
}

// Opens the tree over m masters with the listed leaves hidden: the fewest nodes from which every other master follows and no hidden one.
pub fn cover(m: u32, hidden: &[u8], salt: &[u8], root: &[u8], out: &mut [u8]) -> Result<(), Refusal>
    ensures { outcome result out.new ≡ cover_op m hidden.now salt.now root.now out.old }
{
    let fit = tree_size(m);
    if !fit {
        return Err(Refusal::Parameter);
    }
    let listed = are_leaves(m, hidden);
    if !listed {
        return Err(Refusal::Index);
    }
    if hidden.len() % 2 != 0 {
        return Err(Refusal::BufferLength);
    }
    if salt.len() != 32 {
        return Err(Refusal::BufferLength);
    }
    if root.len() != 16 {
        return Err(Refusal::BufferLength);
    }
    open_listed(m, hidden, salt, root, out)
}
