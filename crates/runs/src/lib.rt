// Theorems on runs of registrations: what a map means as plain sets, and when a call is refused. Nothing here runs.
#![tactic(auto)]
