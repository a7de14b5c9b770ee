//! That of a stream with one listener each text has what it has of a path, and that its frames have few ports.
#![tactic(auto)]

pub mod laws;
