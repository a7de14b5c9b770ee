//! What it means that a sender is over what it declares.
#![tactic(auto)]

pub mod laws;
