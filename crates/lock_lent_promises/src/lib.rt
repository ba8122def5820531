// What is promised of the results of the functions over lent lists of records: statements and proofs, no code.
#![tactic(auto)]
