// Words with a bit for each party, bit i for party i: parity, the hidden party's bit, the broadcasts of an AND gate.
#![tactic(auto)]

ghost use Rattle.std.specs.Prelude.{◌≡◌};
ghost use Rattle.std.specs.Int.Bits.{bit_xor, bit_and};
ghost use Rattle.bits.specs.Bits.{bit_val, odd};
ghost use Rattle.words.specs.Words.{parity, every, place, broadcast_word, chosen};
ghost use Rattle.words.specs.Steps.{AndColumns};

pub mod transpose;

// The XOR of the 64 bits of a word.
pub fn parity(x: u64) -> u8
    ensures { result ≡ bit_val (parity 64 x) }
{
    (x.count_ones() % 2) as u8
}

// The word with the lowest bit of m at each place.
pub fn every(m: u8) -> u64
    ensures { result ≡ every 64 (odd m) }
{
    (m % 2) as u64 * 0xFFFFFFFFFFFFFFFF
}

// The word with a bit at party p's place alone; zero where p is 64 or more.
pub fn place(p: usize) -> u64
    ensures { result ≡ place 64 p }
{
    if p < 64 { 1 << (p as u64) } else { 0 }
}

// The word new, with the bits of old at the places of hidden: no branch tells which.
pub fn chosen(hidden: u64, old: u64, new: u64) -> u64
    ensures { result ≡ chosen hidden old new }
{
    new ^ ((old ^ new) & hidden)
}

// What an AND gate makes: the broadcasts as delivered, and the masked value of its output in the lowest bit of a byte.
#[derive(Clone, Copy)]
pub struct Delivered {
    pub word: u64,
    pub masked: u8,
}

// An AND gate: masked values in the lowest bits of ma and mb, shares sa and sb, product shares z, output masks o. At the places
// of hidden the broadcast is as shown: what needs no masked value is done first, since the gates wait for each other's.
pub fn and_gate(
    ma: u8,
    mb: u8,
    sa: u64,
    sb: u64,
    z: u64,
    o: u64,
    hidden: u64,
    shown: u64,
) -> Delivered
    ensures word_value { result.word ≡ chosen hidden shown (broadcast_word 64 (odd ma) (odd mb) sa sb z o) }
    ensures masked_value { result.masked ≡ bit_xor (bit_and ma mb) (bit_val (parity 64 result.word)) }
    ensures and_columns { AndColumns (odd ma) (odd mb) sa sb z o hidden shown result.word (odd result.masked) }
{
    let kept = hidden ^ 0xFFFFFFFFFFFFFFFF;
    let own = chosen(hidden, shown, z ^ o);
    let word = (every(ma) & (sb & kept)) ^ ((every(mb) & (sa & kept)) ^ own);
    Delivered {
        word,
        masked: (ma & mb) ^ parity(word),
    }
}
