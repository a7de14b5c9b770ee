//! Networks that tests are written over.
#![tactic(auto)]

pub mod lines;
pub mod trees;
