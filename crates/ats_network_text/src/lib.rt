//! What is printed of a network.
#![tactic(auto)]

pub mod printing;
mod rates;

pub use printing::show;
