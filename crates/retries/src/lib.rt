// How often an exchange on the count can fail: definitions, statements and proofs, no code.
#![tactic(auto)]
