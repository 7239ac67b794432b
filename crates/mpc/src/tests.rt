// The tests of what is lent: lengths and unused bits.
ghost use Rattle.std.specs.Prelude.{◌≡◌, cond, suc, ◌+◌, ◌*◌, ◌≤◌, eqb, length};
ghost use Rattle.bits.specs.Bits.{oct};
ghost use Rattle.circuit.specs.File.{circuit_of};
ghost use Rattle.plain.specs.Tapes.{unused_rows};
ghost use Rattle.mpc.specs.Steps.{Known};

use circuit::Sizes;

// Whether s has the bytes for k bits.
pub fn holds(s: &[u8], k: usize) -> bool
    ensures { result ≡ eqb (length s.now) (oct k) }
{
    s.len() == bits::oct(k)
}

// Whether s has n rows for k bits each.
pub fn holds_rows(s: &[u8], n: usize, k: usize) -> bool
    requires { (n ≤ 64) × (k ≤ 4194304) }
    ensures { result ≡ eqb (length s.now) (n * oct k) }
{
    s.len() == n * bits::oct(k)
}

// The bits that party i of n uses of its row.
pub fn used_bits(inputs: usize, ands: usize, n: usize, i: usize) -> usize
    requires { (inputs ≤ 4194304) × ((ands ≤ 4194304) × (i ≤ 4194304)) }
    ensures { result ≡ cond (eqb (suc i) n) (inputs + ands) (inputs + 2 * ands) }
{
    if i + 1 == n {
        inputs + ands
    } else {
        inputs + 2 * ands
    }
}

// Whether the unused bits of all n rows of the tapes are zero.
pub fn unused_rows(s: &[u8], z: Sizes, n: usize, tapes: &[u8]) -> bool
    requires { Known s.now z × (n ≤ 64) }
    ensures { result ≡ unused_rows (circuit_of s.now) n tapes.now n }
{
    let inputs = z.inputs;
    let ands = z.ands;
    let len = bits::oct(inputs + 2 * ands);
    let mut good = true;
    for i in 0..n {
        let row = bits::row(tapes, len, i);
        good &= bits::unused_zero(row, used_bits(inputs, ands, n, i));
    }
    good
}
