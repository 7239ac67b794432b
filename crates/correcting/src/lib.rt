// The run of a prover, who has the tapes of all parties: one walk makes the corrections and the broadcasts. No gate waits for the parity
// of another gate's broadcasts.
#![tactic(auto)]

pub mod loading;
pub mod running;
