//! Worked captures and schedules with several senders: what is told of each.
#![tactic(auto)]

pub mod laws;
