//! Files and requests with several faults at once, and which of them is named.
#![tactic(auto)]

pub mod laws;
