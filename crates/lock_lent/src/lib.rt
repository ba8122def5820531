// The lock over a lent list of records: setup, run, a later piece of a run, one entry, and drain, of any list of any length. Each takes
// the records out of the list, calls the function of `lock` with records by value, and puts the records back.
#![tactic(auto)]

pub mod drain;
pub mod exchange;
pub mod run;
pub mod setup;
