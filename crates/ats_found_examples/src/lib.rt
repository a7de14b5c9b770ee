//! What is told of what is found of a later stream, and for a later listener.
#![tactic(auto)]

pub mod laws;
