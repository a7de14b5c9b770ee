//! What is proved of the burst, and of the delays that are found by it.
#![tactic(auto)]

pub mod laws;
pub mod worked;
