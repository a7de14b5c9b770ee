//! What is printed of answers to requests for admission.
#![tactic(auto)]

mod pieces;
pub mod printing;

pub use printing::answered;
