//! The port law: at one port, each frame of a class is within the bound of the row that covers it.
#![tactic(auto)]

pub mod laws;
