//! What is promised of the texts that are printed, said once more.
#![tactic(auto)]

pub mod laws;
