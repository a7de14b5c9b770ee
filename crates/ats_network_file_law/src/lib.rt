//! What a network file declares, entry by entry.
#![tactic(auto)]

pub mod laws;
