// What is proved of every page: statements and their proofs, and no code.
#![tactic(auto)]
