//! What is judged and printed of streams with several listeners, on worked networks.
#![tactic(auto)]

pub mod laws;
