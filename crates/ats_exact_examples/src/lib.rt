//! Laws that hold one way only, made exact.
#![tactic(auto)]

pub mod laws;
