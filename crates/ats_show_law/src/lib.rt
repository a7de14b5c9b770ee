//! That the text of `show` has the listeners of each stream, and the rates that bridges are told.
#![tactic(auto)]

pub mod laws;
