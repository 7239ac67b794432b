// The work memory of a run on words: its layout, the tapes of all parties as words, and the broadcast words as rows.
#![tactic(auto)]

pub mod places;
pub mod rows;
pub mod tapes;

// The numbers that the layout of the work memory goes by: wires, inputs, AND gates, output wires.
#[derive(Clone, Copy)]
pub struct Layout {
    pub wires: usize,
    pub inputs: usize,
    pub ands: usize,
    pub outputs: usize,
}
