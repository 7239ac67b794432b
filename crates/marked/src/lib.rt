// The marked cases of document 01, as one proved table, and m10 as the answer of prove: specs/Marked.antt. There is no code here.
#![tactic(auto)]
