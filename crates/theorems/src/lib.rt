// What is proved of every run: the statements of specs/, their proofs and the laws that these rest on. There is no code.
#![tactic(auto)]
