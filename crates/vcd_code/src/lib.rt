// A trace as a waveform, a four-state VCD, and back.
#![tactic(auto)]

mod ahead;
mod fill;
pub mod read;
pub mod write;
