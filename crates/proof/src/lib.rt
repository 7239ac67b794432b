// The proof file: the definitions of prove and check, what a challenge asks of each instance, and the nodes of the masters' tree.
#![tactic(auto)]

pub mod asking;
pub mod nodes;

// The bytes of a proof's header.
pub const HEADER_BYTES: usize = 70;

// The counts of a proof: M instances, of which τ are chosen, and n parties, by a tree of this height.
#[derive(Clone, Copy)]
pub struct Counts {
    pub instances: u32,
    pub chosen: u32,
    pub parties: u32,
    pub height: u32,
}
