// Theorems on the writer of request L1: every sequence of calls, what is finished, each refusal exactly when. No code.
#![tactic(auto)]
