// The node at a place, as a tree: of any two blocks, so that what reads a tree has a whole answer for all of them. Nothing here runs.
#![tactic(auto)]
