//! Words of files and their lines, records and reports, written out in the words below them.
#![tactic(auto)]

pub mod laws;
