// Definitions and theorems alone: the run on words, all parties' shares of a wire in one, is the run on bits; and the corrections
// from the wires' masks alone are those of the shares.
#![tactic(auto)]
