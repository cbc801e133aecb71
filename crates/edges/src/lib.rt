// Document 01's table of edges, in one place: each row is computed from the definitions. Nothing here runs.
#![tactic(auto)]
