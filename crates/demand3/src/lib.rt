// Theorems on the finished areas of a run of registrations: demand 3, and refusal 3. Nothing here runs.
#![tactic(auto)]
