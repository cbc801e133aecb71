// Theorems on the tree's call: each refusal exactly when, and that the translated claims are what translation gives. Nothing here runs.
#![tactic(auto)]
