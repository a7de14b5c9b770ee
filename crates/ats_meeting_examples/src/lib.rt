//! Frames of several senders where they meet, on closed runs and releases.
#![tactic(auto)]

pub mod laws;
