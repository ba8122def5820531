// What it is that a function's contract says something, so that statements can cite functions (specs/). It has no code.
#![tactic(auto)]
