// The corrections from the wires' masks alone: the XOR of the parties' tapes, and a walk with one mask a wire.
#![tactic(auto)]

pub mod chain;
pub mod rows;
