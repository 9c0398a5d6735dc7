// Theorems about document 01's definitions, under proofs/: a file for each, named for what it says. Nothing here runs.
#![tactic(auto)]
