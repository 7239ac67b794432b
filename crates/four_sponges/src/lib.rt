// Four sponges at once: their blocks are full, and the bytes that they give out go into four rows of equal length.
#![tactic(auto)]

ghost use Rattle.std.specs.Prelude.{◌≡◌, ◌+◌, ◌*◌, ◌/◌, ◌%◌, ◌≤◌, ◌<◌, length};
ghost use Rattle.bits.specs.Bits.{tabulate};
ghost use Rattle.keccak.specs.Steps.{byte_at, squeezes};
ghost use Rattle.four.specs.Steps.{state_of};
ghost use Rattle.four_sponges.specs.Steps.{full, opened, stored, four_rows};

use four::permute4;

// Byte b of state k.
fn byte_of(s: &[u64; 100], k: usize, b: usize) -> u8
    requires { (k < 4) × (b < 200) }
    ensures { result ≡ byte_at (state_of k s.now) b }
{
    ((s[4 * (b / 8) + k] >> ((8 * (b % 8)) as u64)) % 256) as u8
}

// Fills the slice with the first lanes of state k.
fn give_lanes(s: &[u64; 100], k: usize, out: &mut [u8])
    requires { (k < 4) × ((length out.old % 8 ≡ 0) × (length out.old ≤ 200)) }
    ensures { out.new ≡ tabulate (length out.old) (byte_at (state_of k s.now)) }
{
    for i in 0..out.len() / 8 {
        bits::write_u64(out, 8 * i, s[4 * i + k]);
    }
}

// Fills the slice with the bytes of state k from byte `from` on.
fn give_bytes(s: &[u64; 100], k: usize, from: usize, out: &mut [u8])
    requires { (k < 4) × (from + length out.old ≤ 200) }
    ensures { out.new ≡ tabulate (length out.old) (λ j. byte_at (state_of k s.now) (from + j)) }
{
    for i in 0..out.len() {
        out[i] = byte_of(s, k, from + i);
    }
}

// Fills the slice with the first bytes of state k: whole lanes, and the bytes that are left.
fn give(s: &[u64; 100], k: usize, out: &mut [u8])
    requires { (k < 4) × (length out.old ≤ 200) }
    ensures { out.new ≡ tabulate (length out.old) (byte_at (state_of k s.now)) }
{
    let n = out.len();
    let end = n - n % 8;
    give_lanes(s, k, &mut out[..end]);
    give_bytes(s, k, end, &mut out[end..]);
}

// Puts the first m bytes of each state, at most a block, into its row of len bytes, from byte `at` of the row on.
fn store(rate: usize, s: &[u64; 100], m: usize, at: usize, len: usize, rows: &mut [u8])
    requires { (rate < 200) × ((m ≤ rate) × ((at + m ≤ len) × (length rows.old ≡ 4 * len))) }
    ensures { rows.new ≡ stored (λ k. squeezes rate m (opened (state_of k s.now))) at len 4 rows.old }
{
    for k in 0..4 {
        let a = k * len + at;
        give(s, k, &mut rows[a..a + m]);
    }
}

// Fills four rows: row k with what a sponge gives out whose lanes are state k, and whose block is full.
pub fn squeeze4(rate: usize, lanes: [u64; 100], rows: &mut [u8])
    requires { (0 < rate) × ((rate < 200) × ((rate % 8 ≡ 0) × (length rows.old % 4 ≡ 0))) }
    ensures { rows.new ≡ four_rows (λ k. squeezes rate (length rows.old / 4) (full rate (state_of k «lanes»))) }
{
    let len = rows.len() / 4;
    let mut s = lanes;
    let mut at = 0;
    // The last step is shorter, so this is no `for`.
    while at < len {
        let m = rate.min(len - at);
        permute4(&mut s);
        store(rate, &s, m, at, len, rows);
        at += m;
    }
}
