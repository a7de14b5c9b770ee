//! What is read back of the captures of ports.
#![tactic(auto)]

pub mod laws;
