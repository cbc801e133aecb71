// Theorems: the page sheet's counts are those of the registrations, page by page. Nothing here runs.
#![tactic(auto)]
