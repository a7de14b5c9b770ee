//! Words of numbers, clocks, streams and topologies, written out in the words below them.
#![tactic(auto)]

pub mod laws;
