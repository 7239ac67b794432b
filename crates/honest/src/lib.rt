// Theorems of the proof file: every honest proof passes, check is the published check, which reads seed*_j from the cover,
// every accepted file is the encoding of its response, and two proofs from one root show both witnesses. There is no code here.
#![tactic(auto)]
