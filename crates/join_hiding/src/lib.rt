// Theorem: a showing of two circuits joined fits every witness of the same two outputs (specs). There is no code here.
#![tactic(auto)]
