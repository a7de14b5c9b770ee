//! The laws of listeners: who they are, which way a frame goes to each, and that of one alone all
//! is said as of a path.
#![tactic(auto)]

pub mod laws;
