//! Words that most laws take as they are, written out in the words below them.
#![tactic(auto)]

pub mod laws;
