//! Frames that bridges send, and frames that end at bridges, on closed examples.
#![tactic(auto)]

pub mod laws;
