// The sponge: bytes are taken in, padded, and given out, with the permutation between blocks.
// A rate is in bytes. Each step hands the sponge back.
ghost use Rattle.std.specs.Prelude.{◌≡◌, ◌+◌, ◌≤◌, ◌<◌, ◌%◌, length};
ghost use Rattle.keccak.specs.Steps.{sponge_of, empty, turned, absorb_byte, absorbs, closed, padded, given_byte, squeeze_byte, Given};

use crate::state::{byte_at, xor_byte, xor_lanes};
use permutation::permute;

// The state of 25 lanes, and the bytes taken of the present block.
#[derive(Clone, Copy)]
pub struct Sponge {
    pub lanes: [u64; 25],
    pub fill: usize,
}

// A byte given out, and the sponge after it.
#[derive(Clone, Copy)]
pub struct Squeezed {
    pub sponge: Sponge,
    pub byte: u8,
}

// Takes in bytes one by one, in place. The bytes then taken of the present block.
fn absorb_bytes(l: &mut [u64; 25], rate: usize, fill: usize, data: &[u8]) -> usize
    requires { (rate < 200) × (fill < rate) }
    ensures { sponge_of l.new result ≡ absorbs rate (sponge_of l.old fill) «data».now }
{
    let mut at = fill;
    for b in data {
        xor_byte(l, at, *b);
        at += 1;
        if at == rate {
            permute(l);
            at = 0;
        }
    }
    at
}

// Takes in whole lanes, a block or what is left of one at a time, in place.
fn absorb_lanes(l: &mut [u64; 25], rate: usize, fill: usize, data: &[u8]) -> usize
    requires { (rate < 200) × ((rate % 8 ≡ 0) × ((fill % 8 ≡ 0) × ((fill < rate) × (length «data».now % 8 ≡ 0)))) }
    ensures { sponge_of l.new result ≡ absorbs rate (sponge_of l.old fill) «data».now }
{
    let mut at = fill;
    let mut i = 0;
    // The step is not constant, so this is no `for`.
    while i < data.len() {
        let m = (rate - at).min(data.len() - i);
        let e = i + m;
        xor_lanes(l, at, &data[i..e]);
        at += m;
        if at == rate {
            permute(l);
            at = 0;
        }
        i = e;
    }
    at
}

// Takes in a slice, in place: bytes up to a lane's start, whole lanes, and the bytes that are left. A sponge that is handed on by value is
// copied at each step, so inputs of several short parts are taken in by this one.
pub fn absorb_in(l: &mut [u64; 25], rate: usize, fill: usize, data: &[u8]) -> usize
    requires { (rate < 200) × ((rate % 8 ≡ 0) × (fill < rate)) }
    ensures { sponge_of l.new result ≡ absorbs rate (sponge_of l.old fill) «data».now }
{
    let n = data.len();
    let head = (8 - fill % 8) % 8;
    if n <= head {
        return absorb_bytes(l, rate, fill, data);
    }
    let end = n - (n - head) % 8;
    let a = absorb_bytes(l, rate, fill, &data[..head]);
    let b = absorb_lanes(l, rate, a, &data[head..end]);
    absorb_bytes(l, rate, b, &data[end..])
}

impl Sponge {
    // The sponge before the first byte.
    pub fn new() -> Sponge
        ensures { result ≡ empty }
    {
        Sponge {
            lanes: [0; 25],
            fill: 0,
        }
    }

    // After a full block the permutation, and an empty block.
    fn turn(mut self, rate: usize) -> Sponge
        ensures { result ≡ turned rate self }
    {
        if self.fill == rate {
            permute(&mut self.lanes);
            self.fill = 0;
        }
        self
    }

    // Takes in one byte.
    pub fn absorb_byte(mut self, rate: usize, b: u8) -> Sponge
        requires { (rate < 200) × (self.fill < rate) }
        ensures { result ≡ absorb_byte rate self b }
    {
        xor_byte(&mut self.lanes, self.fill, b);
        self.fill += 1;
        self.turn(rate)
    }

    // Takes in a slice.
    pub fn absorb(self, rate: usize, data: &[u8]) -> Sponge
        requires { (rate < 200) × ((rate % 8 ≡ 0) × (self.fill < rate)) }
        ensures { result ≡ absorbs rate self «data».now }
    {
        let mut l = self.lanes;
        let at = absorb_in(&mut l, rate, self.fill, data);
        Sponge { lanes: l, fill: at }
    }

    // Closes the message by its padding: the block is full, and not yet permuted.
    pub fn close(mut self, rate: usize, first: u8) -> Sponge
        requires { (0 < rate) × ((rate < 200) × (self.fill < rate)) }
        ensures { result ≡ closed rate first self }
    {
        xor_byte(&mut self.lanes, self.fill, first);
        xor_byte(&mut self.lanes, rate - 1, 0x80);
        self.fill = rate;
        self
    }

    // Pads the message and permutes: the sponge is ready to give out bytes.
    pub fn pad(self, rate: usize, first: u8) -> Sponge
        requires { (0 < rate) × ((rate < 200) × (self.fill < rate)) }
        ensures { result ≡ padded rate first self }
    {
        self.close(rate, first).turn(rate)
    }

    // The byte at the fill, and the sponge after it.
    fn give(self) -> Squeezed
        requires { self.fill < 200 }
        ensures { result ≡ given_byte self }
    {
        let byte = byte_at(&self.lanes, self.fill);
        Squeezed {
            sponge: Sponge {
                fill: self.fill + 1,
                ..self
            },
            byte,
        }
    }

    // Gives out one byte.
    pub fn squeeze_byte(self, rate: usize) -> Squeezed
        requires { (0 < rate) × ((rate < 200) × (self.fill ≤ rate)) }
        ensures { result ≡ squeeze_byte rate self }
    {
        self.turn(rate).give()
    }

    // Gives out bytes one by one.
    fn squeeze_bytes(self, rate: usize, out: &mut [u8]) -> Sponge
        requires { (0 < rate) × ((rate < 200) × (self.fill ≤ rate)) }
        ensures { Given rate self out.old result out.new }
    {
        let mut l = self.lanes;
        let mut at = self.fill;
        for b in out.iter_mut() {
            if at == rate {
                permute(&mut l);
                at = 0;
            }
            *b = byte_at(&l, at);
            at += 1;
        }
        Sponge { lanes: l, fill: at }
    }

    // Gives out whole lanes.
    fn squeeze_lanes(self, rate: usize, out: &mut [u8]) -> Sponge
        requires { (0 < rate) × ((rate < 200) × ((rate % 8 ≡ 0) × ((self.fill % 8 ≡ 0) × ((self.fill ≤ rate) × (length out.old % 8 ≡ 0))))) }
        ensures { Given rate self out.old result out.new }
    {
        let mut l = self.lanes;
        let mut from = self.fill;
        for j in 0..out.len() / 8 {
            if from == rate {
                permute(&mut l);
                from = 0;
            }
            bits::write_u64(out, 8 * j, l[from / 8]);
            from += 8;
        }
        Sponge {
            lanes: l,
            fill: from,
        }
    }

    // Gives out as many bytes as the slice has: bytes up to a lane's start, whole lanes, and the bytes that are left.
    pub fn squeeze(self, rate: usize, out: &mut [u8]) -> Sponge
        requires { (0 < rate) × ((rate < 200) × ((rate % 8 ≡ 0) × (self.fill ≤ rate))) }
        ensures { Given rate self out.old result out.new }
    {
        let n = out.len();
        let head = (8 - self.fill % 8) % 8;
        if n <= head {
            return self.squeeze_bytes(rate, out);
        }
        let end = n - (n - head) % 8;
        let a = self.squeeze_bytes(rate, &mut out[..head]);
        let b = a.squeeze_lanes(rate, &mut out[head..end]);
        b.squeeze_bytes(rate, &mut out[end..])
    }
}
