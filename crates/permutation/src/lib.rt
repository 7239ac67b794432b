// Keccak-f[1600] on 25 lanes (FIPS 202, section 3): the five step mappings of 3.2, the round of 3.3 and the 24 rounds of 3.4.
// Lane (x, y) stands at 5 y + x, as in 3.1.3.
#![tactic(auto)]

ghost use Rattle.std.specs.Prelude.{◌≡◌, ◌<◌};
ghost use Rattle.permutation.specs.Permutation.{θ, ρ, π, χ, ι, Rnd, rounds, lanes, lane_array};
ghost use Rattle.permutation.specs.Steps.{round_constant};

// Algorithm 1: each bit with the parities of two columns.
pub fn theta(a: [u64; 25]) -> [u64; 25]
    ensures { result ≡ lanes (θ (lane_array a)) }
{
    let c0 = a[0] ^ a[5] ^ a[10] ^ a[15] ^ a[20];
    let c1 = a[1] ^ a[6] ^ a[11] ^ a[16] ^ a[21];
    let c2 = a[2] ^ a[7] ^ a[12] ^ a[17] ^ a[22];
    let c3 = a[3] ^ a[8] ^ a[13] ^ a[18] ^ a[23];
    let c4 = a[4] ^ a[9] ^ a[14] ^ a[19] ^ a[24];
    let d0 = c4 ^ ((c1 << 1) | (c1 >> 63));
    let d1 = c0 ^ ((c2 << 1) | (c2 >> 63));
    let d2 = c1 ^ ((c3 << 1) | (c3 >> 63));
    let d3 = c2 ^ ((c4 << 1) | (c4 >> 63));
    let d4 = c3 ^ ((c0 << 1) | (c0 >> 63));
    [
        a[0] ^ d0,
        a[1] ^ d1,
        a[2] ^ d2,
        a[3] ^ d3,
        a[4] ^ d4,
        a[5] ^ d0,
        a[6] ^ d1,
        a[7] ^ d2,
        a[8] ^ d3,
        a[9] ^ d4,
        a[10] ^ d0,
        a[11] ^ d1,
        a[12] ^ d2,
        a[13] ^ d3,
        a[14] ^ d4,
        a[15] ^ d0,
        a[16] ^ d1,
        a[17] ^ d2,
        a[18] ^ d3,
        a[19] ^ d4,
        a[20] ^ d0,
        a[21] ^ d1,
        a[22] ^ d2,
        a[23] ^ d3,
        a[24] ^ d4,
    ]
}

// Algorithm 2: the lanes rotated, each by its offset.
pub fn rho(a: [u64; 25]) -> [u64; 25]
    ensures { result ≡ lanes (ρ (lane_array a)) }
{
    [
        a[0],
        (a[1] << 1) | (a[1] >> 63),
        (a[2] << 62) | (a[2] >> 2),
        (a[3] << 28) | (a[3] >> 36),
        (a[4] << 27) | (a[4] >> 37),
        (a[5] << 36) | (a[5] >> 28),
        (a[6] << 44) | (a[6] >> 20),
        (a[7] << 6) | (a[7] >> 58),
        (a[8] << 55) | (a[8] >> 9),
        (a[9] << 20) | (a[9] >> 44),
        (a[10] << 3) | (a[10] >> 61),
        (a[11] << 10) | (a[11] >> 54),
        (a[12] << 43) | (a[12] >> 21),
        (a[13] << 25) | (a[13] >> 39),
        (a[14] << 39) | (a[14] >> 25),
        (a[15] << 41) | (a[15] >> 23),
        (a[16] << 45) | (a[16] >> 19),
        (a[17] << 15) | (a[17] >> 49),
        (a[18] << 21) | (a[18] >> 43),
        (a[19] << 8) | (a[19] >> 56),
        (a[20] << 18) | (a[20] >> 46),
        (a[21] << 2) | (a[21] >> 62),
        (a[22] << 61) | (a[22] >> 3),
        (a[23] << 56) | (a[23] >> 8),
        (a[24] << 14) | (a[24] >> 50),
    ]
}

// Algorithm 3: the lanes rearranged.
pub fn pi(a: [u64; 25]) -> [u64; 25]
    ensures { result ≡ lanes (π (lane_array a)) }
{
    [
        a[0], a[6], a[12], a[18], a[24], a[3], a[9], a[10], a[16], a[22], a[1], a[7], a[13], a[19],
        a[20], a[4], a[5], a[11], a[17], a[23], a[2], a[8], a[14], a[15], a[21],
    ]
}

// Algorithm 4: each lane with the next two of its plane. x ^ (!y & z) is !x ^ (y | !z); written so in two of five lanes, three
// complements serve a plane.
pub fn chi(a: [u64; 25]) -> [u64; 25]
    ensures { result ≡ lanes (χ (lane_array a)) }
{
    let a0 = a[0];
    let a1 = a[1];
    let a2 = a[2];
    let a3 = a[3];
    let a4 = a[4];
    let a5 = a[5];
    let a6 = a[6];
    let a7 = a[7];
    let a8 = a[8];
    let a9 = a[9];
    let a10 = a[10];
    let a11 = a[11];
    let a12 = a[12];
    let a13 = a[13];
    let a14 = a[14];
    let a15 = a[15];
    let a16 = a[16];
    let a17 = a[17];
    let a18 = a[18];
    let a19 = a[19];
    let a20 = a[20];
    let a21 = a[21];
    let a22 = a[22];
    let a23 = a[23];
    let a24 = a[24];
    [
        !a0 ^ (a1 | !a2),
        a1 ^ (!a2 & a3),
        !a2 ^ (a3 | !a4),
        a3 ^ (!a4 & a0),
        a4 ^ (!a0 & a1),
        !a5 ^ (a6 | !a7),
        a6 ^ (!a7 & a8),
        !a7 ^ (a8 | !a9),
        a8 ^ (!a9 & a5),
        a9 ^ (!a5 & a6),
        !a10 ^ (a11 | !a12),
        a11 ^ (!a12 & a13),
        !a12 ^ (a13 | !a14),
        a13 ^ (!a14 & a10),
        a14 ^ (!a10 & a11),
        !a15 ^ (a16 | !a17),
        a16 ^ (!a17 & a18),
        !a17 ^ (a18 | !a19),
        a18 ^ (!a19 & a15),
        a19 ^ (!a15 & a16),
        !a20 ^ (a21 | !a22),
        a21 ^ (!a22 & a23),
        !a22 ^ (a23 | !a24),
        a23 ^ (!a24 & a20),
        a24 ^ (!a20 & a21),
    ]
}

// RC of each round by Algorithm 6, as a lane.
const ROUND_CONSTANTS: [u64; 24] = [
    0x0000000000000001,
    0x0000000000008082,
    0x800000000000808A,
    0x8000000080008000,
    0x000000000000808B,
    0x0000000080000001,
    0x8000000080008081,
    0x8000000000008009,
    0x000000000000008A,
    0x0000000000000088,
    0x0000000080008009,
    0x000000008000000A,
    0x000000008000808B,
    0x800000000000008B,
    0x8000000000008089,
    0x8000000000008003,
    0x8000000000008002,
    0x8000000000000080,
    0x000000000000800A,
    0x800000008000000A,
    0x8000000080008081,
    0x8000000000008080,
    0x0000000080000001,
    0x8000000080008008,
];

// The entry of the round ir. By literal indices the compiler keeps the table as data; ROUND_CONSTANTS[ir] is laid on the stack anew
// in every round.
pub fn round_constant(ir: usize) -> u64
    requires { ir < 24 }
    ensures { result ≡ round_constant ir }
{
    let table = ROUND_CONSTANTS;
    match ir {
        0 => table[0],
        1 => table[1],
        2 => table[2],
        3 => table[3],
        4 => table[4],
        5 => table[5],
        6 => table[6],
        7 => table[7],
        8 => table[8],
        9 => table[9],
        10 => table[10],
        11 => table[11],
        12 => table[12],
        13 => table[13],
        14 => table[14],
        15 => table[15],
        16 => table[16],
        17 => table[17],
        18 => table[18],
        19 => table[19],
        20 => table[20],
        21 => table[21],
        22 => table[22],
        23 => table[23],
        _ => 0,
    }
}

// Algorithm 6: the constant of the round ir into lane (0, 0).
pub fn iota(mut a: [u64; 25], ir: usize) -> [u64; 25]
    requires { ir < 24 }
    ensures { result ≡ lanes (ι (lane_array a) ir) }
{
    a[0] ^= round_constant(ir);
    a
}

// 3.3: the round ir.
pub fn round(a: [u64; 25], ir: usize) -> [u64; 25]
    requires { ir < 24 }
    ensures { result ≡ lanes (Rnd (lane_array a) ir) }
{
    iota(chi(pi(rho(theta(a)))), ir)
}

// 3.4: Keccak-f[1600], the 24 rounds.
pub fn keccak_f(a: [u64; 25]) -> [u64; 25]
    ensures { result ≡ lanes (rounds 24 (lane_array a)) }
{
    let mut s = a;
    for ir in 0..24 {
        // Not s = round(s, ir): the borrow checker does not cover a call's result that is laid in an array.
        let next = round(s, ir);
        s = next;
    }
    s
}

// Keccak-f[1600] in place. The sponge calls this one, so that the rounds stand once in the compiled code.
pub fn permute(a: &mut [u64; 25])
    ensures { a.new ≡ lanes (rounds 24 (lane_array a.old)) }
{
    let t = keccak_f(*a);
    *a = t;
}
