//! Lists that proofs alone read.
#![tactic(auto)]

pub mod history;

pub use history::History;
