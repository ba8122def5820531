// What the programs that replay a list share: its lines found in chunks, the numbers of a line, lists compared, and what became of each
// line, counted and printed.
#![tactic(auto)]

pub mod lists;
pub mod numbers;
pub mod reading;
pub mod tally;
