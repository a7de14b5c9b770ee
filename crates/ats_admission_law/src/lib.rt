//! What becomes of a network's certificate when a stream comes or goes.
#![tactic(auto)]

pub mod laws;
