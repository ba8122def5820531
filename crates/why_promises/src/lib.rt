// What is promised of the answers why a thread waits: statements and proofs, no code.
#![tactic(auto)]
