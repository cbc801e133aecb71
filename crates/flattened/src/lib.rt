// The flattened form of a tree, and the theorem that it is read back. No code of its own.
#![tactic(auto)]
