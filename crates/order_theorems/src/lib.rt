// Theorems on whole order files; there is no code here. specs/Rows has the table of refusals, proofs/ what is proved.
#![tactic(auto)]
