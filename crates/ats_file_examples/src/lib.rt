//! Worked files with many entries: what they declare, in which entry a fault is, and what is printed of them.
#![tactic(auto)]

pub mod laws;
