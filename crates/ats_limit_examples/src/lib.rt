//! The most ports of a path, of a route and of all streams, on closed examples.
#![tactic(auto)]

pub mod laws;
