// Whole runs on words in a lent work memory, for up to 64 parties.
#![tactic(auto)]

pub mod loading;
pub mod running;
