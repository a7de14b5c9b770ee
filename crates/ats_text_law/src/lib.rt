//! That a text tells what it was made of.
#![tactic(auto)]

pub mod laws;
