// One instance of the protocol: seeds, tapes, commitments and digests; what is sent of it, and what a checker makes of that.
#![tactic(auto)]

pub mod checking;
pub mod committing;
pub mod seeding;
pub mod sending;

use hashing::Context;

// An instance: its number j with the salt of its proof, its parties n, and the height of their tree.
#[derive(Clone, Copy)]
pub struct Instance {
    pub context: Context,
    pub parties: u32,
    pub height: u32,
}

// The two digests of an instance: h_j and h'_j.
#[derive(Clone, Copy)]
pub struct Digests {
    pub commitments: [u8; 32],
    pub online: [u8; 32],
}

// The digests of a replayed instance, and whether its output is y.
#[derive(Clone, Copy)]
pub struct Replayed {
    pub agrees: bool,
    pub commitments: [u8; 32],
    pub online: [u8; 32],
}
