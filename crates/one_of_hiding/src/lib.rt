// Theorem on the circuit with one output that is 1 exactly if the old output is in a list: a showing fits every row that matches (specs).
// There is no code here.
#![tactic(auto)]
