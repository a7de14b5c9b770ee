//! What the records of a capture come to, in words of all records at once.
#![tactic(auto)]

pub mod laws;
