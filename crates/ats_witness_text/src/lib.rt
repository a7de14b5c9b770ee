//! What is printed of the delays that are found of a stream.
#![tactic(auto)]

pub mod printing;

pub use printing::write_found;
