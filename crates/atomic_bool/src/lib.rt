// The bool atomic: the accesses of `atomic_access` at true and false, of which `on_bool` says what they leave and answer.
#![tactic(auto)]

pub use atomic_access::{
    compare_exchange, compare_exchange_weak, fetch_and, fetch_or, fetch_xor, load, store, swap,
};

pub type Perm = atomic_access::Perm<bool>;

pub type Answer = atomic_access::Answer<bool>;

pub type Did = atomic_access::Did<bool>;
