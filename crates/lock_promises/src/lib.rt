// What is promised of the functions' results: statements and proofs, no code.
#![tactic(auto)]
