//! Lines that are printed, each as a whole, written out in the words below.
#![tactic(auto)]

pub mod laws;
