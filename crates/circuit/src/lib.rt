// The circuit file: its fields and gate records, and why a file is refused.
#![tactic(auto)]

ghost use Rattle.std.specs.Prelude.{◌≡◌};

pub mod records;

use refusal::Refusal;

// The bytes of a field of the file.
pub const WIDTH: usize = 4;

// The limits on I, O and G, and on the wires: MAX_INPUTS + MAX_GATES.
pub const MAX_INPUTS: usize = 512;

pub const MAX_OUTPUTS: usize = 256;

pub const MAX_GATES: usize = 100000;

pub const MAX_WIRES: usize = 100512;

// The bytes for a bit of each wire.
pub const WIRE_BYTES: usize = 12564;

// A gate and the wires it reads.
#[derive(Clone, Copy)]
pub enum Gate {
    Xor(usize, usize),
    And(usize, usize),
    Inv(usize),
}

// A gate record: the next slot, and the gate.
#[derive(Clone, Copy)]
pub struct Record {
    pub next: usize,
    pub gate: Gate,
}

// What the front of a file says: the bytes of its fields, I, O and G, and the head of its chain.
#[derive(Clone, Copy)]
pub struct Front {
    pub width: usize,
    pub inputs: usize,
    pub outputs: usize,
    pub gates: usize,
    pub head: usize,
}

// The numbers I, O, G and A of a circuit.
#[derive(Clone, Copy)]
pub struct Sizes {
    pub inputs: usize,
    pub outputs: usize,
    pub gates: usize,
    pub ands: usize,
}

// Why a file is no legal circuit: the refusal, and the slot that it tells. A fault of the chain tells the slot that holds the offending link,
// 0 for the head; any other tells 0.
#[derive(Clone, Copy)]
pub struct Fault {
    pub refusal: Refusal,
    pub slot: usize,
}

// A refusal that tells no slot.
impl From<Refusal> for Fault {
    ghost from_gives = { λ k f. f ≡ record { refusal = k; slot = 0 } };

    fn from(refusal: Refusal) -> Fault {
        Fault { refusal, slot: 0 }
    }
}

// The other operations tell a refusal by its number alone.
impl From<Fault> for Refusal {
    ghost from_gives = { λ f e. e ≡ f.refusal };

    fn from(f: Fault) -> Refusal {
        f.refusal
    }
}
