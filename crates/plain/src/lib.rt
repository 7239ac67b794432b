// Definitions and laws alone: tapes, the run by n parties, and showings, on bits, for any number of parties.
#![tactic(auto)]
