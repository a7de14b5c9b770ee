//! Legal runs, one behind another.
#![tactic(auto)]

pub mod laws;
