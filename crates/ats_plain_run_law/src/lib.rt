//! Words of runs, releases, measures, witnesses and captures, written out in the words below them.
#![tactic(auto)]

pub mod laws;
