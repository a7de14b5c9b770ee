//! The words of each fault, and what is printed where a file has one.
#![tactic(auto)]

pub mod laws;
