// Ranges and lists: definitions and their laws, and no code. All other crates stand on this one.
#![tactic(auto)]
