// Keccak-f[1600] on four states at once, lane i of state k at 4 i + k: a loop over the four that the compiler turns into one of vectors.
#![tactic(auto)]

ghost use Rattle.std.specs.Prelude.{◌≡◌, ◌<◌, length};
ghost use Rattle.permutation.specs.Permutation.{Rnd, rounds, lanes, lane_array};
ghost use Rattle.four.specs.Steps.{Lanes64, state_of, each, put_state, joined, stepped, rounded_by, plane};

use permutation::{chi, pi, rho, round_constant, theta};

// State k.
pub fn state(s: &[u64; 100], k: usize) -> [u64; 25]
    requires { k < 4 }
    ensures { result ≡ state_of k s.now }
{
    [
        s[0 + k],
        s[4 + k],
        s[8 + k],
        s[12 + k],
        s[16 + k],
        s[20 + k],
        s[24 + k],
        s[28 + k],
        s[32 + k],
        s[36 + k],
        s[40 + k],
        s[44 + k],
        s[48 + k],
        s[52 + k],
        s[56 + k],
        s[60 + k],
        s[64 + k],
        s[68 + k],
        s[72 + k],
        s[76 + k],
        s[80 + k],
        s[84 + k],
        s[88 + k],
        s[92 + k],
        s[96 + k],
    ]
}

// Puts b as state k.
fn put(s: &mut [u64; 100], k: usize, b: [u64; 25])
    requires { k < 4 }
    ensures { s.new ≡ put_state k b s.old }
{
    s[0 + k] = b[0];
    s[4 + k] = b[1];
    s[8 + k] = b[2];
    s[12 + k] = b[3];
    s[16 + k] = b[4];
    s[20 + k] = b[5];
    s[24 + k] = b[6];
    s[28 + k] = b[7];
    s[32 + k] = b[8];
    s[36 + k] = b[9];
    s[40 + k] = b[10];
    s[44 + k] = b[11];
    s[48 + k] = b[12];
    s[52 + k] = b[13];
    s[56 + k] = b[14];
    s[60 + k] = b[15];
    s[64 + k] = b[16];
    s[68 + k] = b[17];
    s[72 + k] = b[18];
    s[76 + k] = b[19];
    s[80 + k] = b[20];
    s[84 + k] = b[21];
    s[88 + k] = b[22];
    s[92 + k] = b[23];
    s[96 + k] = b[24];
}

// Four states as one.
pub fn join(a: [u64; 25], b: [u64; 25], c: [u64; 25], d: [u64; 25]) -> [u64; 100]
    ensures { result ≡ joined a b c d }
{
    let mut s = [0u64; 100];
    put(&mut s, 0, a);
    put(&mut s, 1, b);
    put(&mut s, 2, c);
    put(&mut s, 3, d);
    s
}

// Plane Y of the state after the step mappings before ι, in the order of FIPS 202.
fn plane<const Y: usize>(a: [u64; 25]) -> [u64; 5]
    requires { Y < 5 }
    ensures { result ≡ plane Y (stepped a) }
{
    let b = chi(pi(rho(theta(a))));
    [
        b[5 * Y],
        b[5 * Y + 1],
        b[5 * Y + 2],
        b[5 * Y + 3],
        b[5 * Y + 4],
    ]
}

// The round with the constant c, plane by plane, so that few lanes are held at a time. The order of the planes is the fastest of those that
// were tried.
fn round_in_planes(a: [u64; 25], c: u64) -> [u64; 25]
    ensures { result ≡ rounded_by c a }
{
    let p = plane::<0>(a);
    let t = plane::<4>(a);
    let q = plane::<1>(a);
    let r = plane::<2>(a);
    let s = plane::<3>(a);
    let mut b = [
        p[0], p[1], p[2], p[3], p[4], q[0], q[1], q[2], q[3], q[4], r[0], r[1], r[2], r[3], r[4],
        s[0], s[1], s[2], s[3], s[4], t[0], t[1], t[2], t[3], t[4],
    ];
    b[0] ^= c;
    b
}

// The round ir on each of the four.
fn round4(s: &mut [u64; 100], ir: usize)
    requires { (ir < 24) × (length s.old ≡ 100) }
    ensures { s.new ≡ each (λ a. lanes (Rnd (lane_array a) ir)) s.old }
{
    let c = round_constant(ir);
    for k in 0..4 {
        let a = state(s, k);
        let b = round_in_planes(a, c);
        put(s, k, b);
    }
}

// Keccak-f[1600] on each of the four: the 24 rounds. The lender knows the length and the range of the lanes.
pub fn permute4(s: &mut [u64; 100])
    requires { (length s.old ≡ 100) × Lanes64 s.old }
    ensures { s.new ≡ each (λ a. lanes (rounds 24 (lane_array a))) s.old }
{
    for ir in 0..24 {
        round4(s, ir);
    }
}
