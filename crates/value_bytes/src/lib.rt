// Theorems: value bytes that no rule reads do not matter to a tree's claims. Nothing here runs.
#![tactic(auto)]
