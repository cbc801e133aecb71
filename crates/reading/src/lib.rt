// Theorems on reading: on the blocks of an accepted tree, at a node's place, each reading function gives what the tree says. Nothing
// here runs.
#![tactic(auto)]
