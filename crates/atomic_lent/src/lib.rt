// The operations of the atomics and of the value cell, with the permission lent by `&mut` and changed in place: thin functions over
// those that take it by value and give it back. They have one shape, whatever the operands.
#![tactic(auto)]

pub mod of_atomic;
pub mod of_cell;
