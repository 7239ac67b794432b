// A circuit run by n parties on masked values: preparing the corrections, and the run.
#![tactic(auto)]

pub mod holding;
pub mod lending;
pub mod preparing;
pub mod running;
pub mod tests;
