// The XOR of the rows of all parties, 8 bytes at a time.
ghost use Rattle.std.specs.Prelude.{◌≡◌, ◌+◌, ◌*◌, ◌/◌, ◌≤◌, length, drop};
ghost use Rattle.std.specs.Int.Bits.{bit_xor};
ghost use Rattle.words.specs.Steps.{at, fill};
ghost use Rattle.masks.specs.Steps.{cleared, added, summed};

// Sets len bytes of the memory to zero, from `to` on.
pub(crate) fn clear_part(memory: &mut [u8], to: usize, len: usize)
    requires { to + len ≤ length memory.old }
    ensures { memory.new ≡ cleared to len memory.old }
{
    memory[to..to + len].fill(0);
}

// XORs the 8 bytes of the memory from j on into those from k on, which stand before them.
fn add_word(memory: &mut [u8], j: usize, k: usize)
    requires { (k + 8 ≤ j) × (j + 8 ≤ length memory.old) }
    ensures { memory.new ≡ fill (λ i. k + i) (λ i. bit_xor (at memory.old (k + i)) (at memory.old (j + i))) 8 memory.old }
{
    let x = bits::read_u64(memory, k) ^ bits::read_u64(memory, j);
    bits::write_u64(memory, k, x);
}

// XORs the whole words of a row of len bytes, from byte a of the memory on, into those from `to` on.
fn add_words(memory: &mut [u8], a: usize, len: usize, to: usize)
    requires { (to + len ≤ a) × (a + len ≤ length memory.old) }
    ensures { memory.new ≡ added (drop a memory.old) to (8 * (len / 8)) memory.old }
{
    for k in 0..len / 8 {
        add_word(memory, a + 8 * k, to + 8 * k);
    }
}

// XORs a row of len bytes, from byte a of the memory on, into the bytes from `to` on.
fn add_row(memory: &mut [u8], a: usize, len: usize, to: usize)
    requires { (to + len ≤ a) × (a + len ≤ length memory.old) }
    ensures { memory.new ≡ added (drop a memory.old) to len memory.old }
{
    add_words(memory, a, len, to);
    for j in 8 * (len / 8)..len {
        memory[to + j] ^= memory[a + j];
    }
}

// Brings the XOR of n rows of len bytes, the first from byte a of the memory on, into the bytes from `to` on.
pub fn add_rows(memory: &mut [u8], a: usize, len: usize, n: usize, to: usize)
    requires { (to + len ≤ a) × (a + n * len ≤ length memory.old) }
    ensures { memory.new ≡ summed (drop a memory.old) len to n memory.old }
{
    clear_part(memory, to, len);
    for i in 0..n {
        add_row(memory, a + i * len, len, to);
    }
}
