//! Serial numbers that rise along a list.
#![tactic(auto)]

pub mod serials;

pub use serials::{place_in, serial_after};
