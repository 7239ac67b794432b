// The lines of a Bristol Fashion text: what its header lines and each of its gate lines say.
#![tactic(auto)]

pub mod gates;
pub mod heading;

// The numbers I, O and G of a text. No `circuit::Sizes`: the header lines do not tell the number of AND gates.
#[derive(Clone, Copy)]
pub struct Sizes {
    pub inputs: usize,
    pub outputs: usize,
    pub gates: usize,
}

// What follows the last space of a gate line.
#[derive(Clone, Copy)]
pub(crate) enum Kind {
    Xor,
    And,
    Inv,
    Other,
}

// A gate: the wires that it reads and, last, the wire that it writes. No `circuit::Gate`: there the place in the file gives the wire that is written.
#[derive(Clone, Copy)]
pub enum Gate {
    Xor(usize, usize, usize),
    And(usize, usize, usize),
    Inv(usize, usize),
}
