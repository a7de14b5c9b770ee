//! Worked calls of the settings, the buffers and the other regulator, and words that are no command.
#![tactic(auto)]

pub mod laws;
