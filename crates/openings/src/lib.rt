// Theorems on openings: two replays give up the witness, and so do two showings of one set of tapes (specs). There is no code here.
#![tactic(auto)]
