//! What laws above those of runs say of worked networks: that their premises are met, by one closed example each.
#![tactic(auto)]

pub mod laws;
