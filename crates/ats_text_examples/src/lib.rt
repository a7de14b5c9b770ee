//! Worked texts and what they declare, and worked values and how they are printed.
#![tactic(auto)]

pub mod laws;
