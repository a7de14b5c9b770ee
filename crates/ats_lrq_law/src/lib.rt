//! What length-rate-quotient regulators let through, whatever comes to them, and what a certificate over narrowed
//! bursts promises of each legal run with them.
#![tactic(auto)]

pub mod laws;
