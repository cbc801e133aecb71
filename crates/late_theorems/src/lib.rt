// Theorems on late claims: a build afresh, chains of late claims, demand 3, and each refusal. Nothing here runs.
#![tactic(auto)]
