// What the calls of `feed` print, one after another: no code, only statements and their proofs.
#![tactic(auto)]
