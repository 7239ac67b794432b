// An AND gate on words that makes its correction.
#![tactic(auto)]

ghost use Rattle.std.specs.Prelude.{◌≡◌};
ghost use Rattle.words.specs.Words.{parity};
ghost use Rattle.correcting_gate.specs.Steps.{correction_byte, output_byte, sent_word};

use words::{chosen, every, parity};

// What an AND gate makes: its broadcasts, the byte of its output wire, and its correction in the lowest bit.
#[derive(Clone, Copy)]
pub struct Corrected {
    pub word: u64,
    pub wire: u8,
    pub correction: u8,
}

// An AND gate of wires with bytes x and y, shares sa and sb, product shares z, output masks o; `last` has party n − 1's place.
pub fn correct(x: u8, y: u8, sa: u64, sb: u64, z: u64, o: u64, last: u64) -> Corrected
    ensures correction_value { result.correction ≡ correction_byte x y z }
    ensures word_value { result.word ≡ sent_word x y sa sb z o last }
    ensures wire_value { result.wire ≡ output_byte x y (parity 64 o) }
{
    let j = x / 2;
    let k = y / 2;
    let u = x ^ j;
    let v = y ^ k;
    let correction = (j & k) ^ parity(z);
    let products = chosen(last, every(correction), z);
    let word = (every(x) & sb) ^ (every(y) & sa) ^ products ^ o;
    let mask = parity(o);
    Corrected {
        word,
        wire: ((u & v) % 2) ^ (3 * mask),
        correction,
    }
}
