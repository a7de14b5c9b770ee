//! What more than one of a thing comes to.
#![tactic(auto)]

pub mod laws;
