//! Orders of frames: where a run by an order keeps it, and that flows keep the rules.
#![tactic(auto)]

pub mod laws;
