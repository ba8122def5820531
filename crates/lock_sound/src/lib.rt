// Whether a state from outside is sound: the test of the definition, on any lists, any lock and any records. No number is trusted: where
// a sum could leave 64 bits, a difference is tested instead.
#![tactic(auto)]

mod mover;
mod record;
mod script;
pub mod sound;
