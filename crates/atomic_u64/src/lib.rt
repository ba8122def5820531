// The 64-bit atomic: the accesses of `atomic_access` at a count of 64 bits, of which `on_u64` says what they leave and answer.
#![tactic(auto)]

use atomic::Count;
pub use atomic_access::{
    compare_exchange, compare_exchange_weak, fetch_add, fetch_add_wrapping, fetch_and, fetch_max,
    fetch_nand, fetch_or, fetch_sub, fetch_sub_wrapping, fetch_xor, load, store, swap,
};

pub type Perm = atomic_access::Perm<Count>;

pub type Answer = atomic_access::Answer<Count>;

pub type Did = atomic_access::Did<Count>;
