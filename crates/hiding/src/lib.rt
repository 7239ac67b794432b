// Theorems of the run by n parties: hiding, and the laws of the run (specs). There is no code here.
#![tactic(auto)]
