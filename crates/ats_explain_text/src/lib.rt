//! What is printed of an explanation.
#![tactic(auto)]

mod pieces;
pub mod printing;

pub use printing::explained;
