//! A worked network with length-rate-quotient regulators, its certificate with narrowed bursts and its runs, and what
//! is proved of them.
#![tactic(auto)]

pub mod laws;
