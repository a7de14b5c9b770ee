//! Worked calls: the bytes of their files, and the answers that are due.
#![tactic(auto)]

pub mod laws;
