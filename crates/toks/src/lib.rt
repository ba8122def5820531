// The source's token machine RwLockToks, as a definition with its invariants (specs/). It has no code.
#![tactic(auto)]
