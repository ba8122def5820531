// The lock as code: each function is proved equal to its definition in `machine`.
#![tactic(auto)]

pub mod drain;
mod entered;
mod entry;
mod refused;
pub mod run;
pub mod setup;
mod table;
mod trace;
