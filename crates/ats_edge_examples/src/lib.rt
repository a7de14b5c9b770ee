//! Worked cases at edges of definitions: what just counts, and what just does not.
#![tactic(auto)]

pub mod laws;
