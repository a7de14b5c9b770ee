//! The words by which a network file is read, written out in the words below them.
#![tactic(auto)]

pub mod laws;
