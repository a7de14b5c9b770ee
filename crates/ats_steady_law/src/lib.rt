//! Legal runs in which a network never rests.
#![tactic(auto)]

pub mod laws;
