// What the operations with a lent permission promise, said by citing those by value. No code, only statements and their proofs.
#![tactic(auto)]
