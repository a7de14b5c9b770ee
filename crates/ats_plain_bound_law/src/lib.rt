//! What rows, bounds, reasons, explanations, buffers and answers are, in the words below them.
#![tactic(auto)]

pub mod laws;
