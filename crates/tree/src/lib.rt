// The tree of an instance: a node's two children, the leaves below a node, an opening, and the leaves that follow from it.
#![tactic(auto)]

ghost use Rattle.std.specs.Prelude.{◌≡◌, ◌++◌, ◌+◌, ◌*◌, ◌^◌, ◌≤◌, ◌<◌, length, take, drop};
ghost use Rattle.four_sponges.specs.Steps.{four_rows};
ghost use Rattle.tree.specs.Tree.{children as «children-of», left_child, right_child, leaves_below, siblings_below, opened_below};

use bits::{clear, copy};
use four::join;
use four_sponges::squeeze4;
use hashing::{Context, shake128};
use keccak::SHAKE128_RATE;
use short::close_node;

// The values of nodes 2k and 2k + 1, from that of node k.
pub fn children(j: Context, k: u32, value: &[u8], out: &mut [u8])
    requires { length out.old ≡ 32 }
    ensures { out.new ≡ «children-of» j k value.now }
{
    let salt = j.salt;
    let n = j.number;
    let head = [
        (n % 256) as u8,
        (n / 256 % 256) as u8,
        (k % 256) as u8,
        (k / 256 % 256) as u8,
    ];
    shake128(2, &salt, &head, value, out);
}

// The values of the children of nodes k to k + 3, from those of the four.
pub fn four_children(j: Context, k: u32, values: &[u8], out: &mut [u8])
    requires { (k + 3 < 4294967296) × ((length values.now ≡ 64) × (length out.old ≡ 128)) }
    ensures { out.new ≡ four_rows (λ i. «children-of» j (k + i) (take 16 (drop (16 * i) values.now))) }
{
    let a = close_node(j, k, &values[..16]);
    let b = close_node(j, k + 1, &values[16..32]);
    let c = close_node(j, k + 2, &values[32..48]);
    let d = close_node(j, k + 3, &values[48..64]);
    squeeze4(SHAKE128_RATE, join(a, b, c, d), out);
}

// The leaves h levels below each of nodes k to k + 3.
fn four_leaves_below(j: Context, k: u32, h: u32, values: &[u8], out: &mut [u8])
    requires { ((1 ≤ h) × (length values.now ≡ 64)) × ((length out.old ≡ 64 * 2 ^ h) × ((k + 4) * 2 ^ h ≤ 65536)) }
    ensures { out.new ≡ four_rows (λ i. leaves_below j h (k + i) (take 16 (drop (16 * i) values.now))) }
{
    if h == 1 {
        four_children(j, k, values, out);
    } else {
        let mut c = [0u8; 128];
        four_children(j, k, values, &mut c);
        let half = out.len() / 2;
        four_leaves_below(j, 2 * k, h - 1, &c[..64], &mut out[..half]);
        four_leaves_below(j, 2 * k + 4, h - 1, &c[64..], &mut out[half..]);
    }
}

// The values of nodes 4k to 4k + 3, from that of node k.
fn grandchildren(j: Context, k: u32, value: &[u8], out: &mut [u8])
    requires { (k < 32768) × (length out.old ≡ 64) }
    ensures { out.new ≡ «children-of» j (2 * k) (left_child j k value.now) ++ «children-of» j (2 * k + 1) (right_child j k value.now) }
{
    let mut c = [0u8; 32];
    children(j, k, value, &mut c);
    children(j, 2 * k, &c[..16], &mut out[..32]);
    children(j, 2 * k + 1, &c[16..], &mut out[32..]);
}

// The leaves h levels below node k: by four nodes at once from two levels down on.
pub fn leaves_below(j: Context, k: u32, h: u32, value: &[u8], out: &mut [u8])
    requires { (length value.now ≡ 16) × ((length out.old ≡ 16 * 2 ^ h) × ((k + 1) * 2 ^ h ≤ 65536)) }
    ensures { out.new ≡ leaves_below j h k value.now }
{
    if h == 0 {
        copy(value, out);
    } else if h < 3 {
        let mut c = [0u8; 32];
        children(j, k, value, &mut c);
        let half = out.len() / 2;
        leaves_below(j, 2 * k, h - 1, &c[..16], &mut out[..half]);
        leaves_below(j, 2 * k + 1, h - 1, &c[16..], &mut out[half..]);
    } else {
        let mut four = [0u8; 64];
        grandchildren(j, k, value, &mut four);
        four_leaves_below(j, 4 * k, h - 2, &four, out);
    }
}

// The leaves of a tree of height h.
fn leaves_of(h: u32) -> u32
    requires { h < 32 }
    ensures { result ≡ 2 ^ h }
{
    1 << h
}

// The siblings on the path from node k to its leaf p, h levels below, top first.
pub fn siblings_below(j: Context, k: u32, h: u32, p: u32, value: &[u8], out: &mut [u8])
    requires { (length value.now ≡ 16) × ((length out.old ≡ 16 * h) × (((k + 1) * 2 ^ h ≤ 65536) × (p < 2 ^ h))) }
    ensures { out.new ≡ siblings_below j h k p value.now }
{
    if h != 0 {
        let mut c = [0u8; 32];
        children(j, k, value, &mut c);
        let half = leaves_of(h - 1);
        if p < half {
            copy(&c[16..], &mut out[..16]);
            siblings_below(j, 2 * k, h - 1, p, &c[..16], &mut out[16..]);
        } else {
            copy(&c[..16], &mut out[..16]);
            siblings_below(j, 2 * k + 1, h - 1, p - half, &c[16..], &mut out[16..]);
        }
    }
}

// The leaves h levels below node k that follow from the siblings on the path to leaf p, with zeros at leaf p.
pub fn opened_below(j: Context, k: u32, h: u32, p: u32, siblings: &[u8], out: &mut [u8])
    requires { (length siblings.now ≡ 16 * h) × ((length out.old ≡ 16 * 2 ^ h) × (((k + 1) * 2 ^ h ≤ 65536) × (p < 2 ^ h))) }
    ensures { out.new ≡ opened_below j h k p siblings.now }
{
    if h == 0 {
        clear(out);
    } else {
        let half = leaves_of(h - 1);
        let mid = out.len() / 2;
        if p < half {
            opened_below(j, 2 * k, h - 1, p, &siblings[16..], &mut out[..mid]);
            leaves_below(j, 2 * k + 1, h - 1, &siblings[..16], &mut out[mid..]);
        } else {
            leaves_below(j, 2 * k, h - 1, &siblings[..16], &mut out[..mid]);
            opened_below(
                j,
                2 * k + 1,
                h - 1,
                p - half,
                &siblings[16..],
                &mut out[mid..],
            );
        }
    }
}
