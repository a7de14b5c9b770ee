//! Worked delays, bursts and sums of what `witness` finds.
#![tactic(auto)]

pub mod laws;
