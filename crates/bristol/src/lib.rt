// Bristol Fashion text: the walk over its lines, and its conversion to a circuit file.
#![tactic(auto)]

pub mod conversion;
mod walk;
mod writing;
