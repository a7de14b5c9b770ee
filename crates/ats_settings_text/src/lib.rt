//! What is printed of the settings of a network's bridges.
#![tactic(auto)]

pub mod writing;

pub use writing::write_settings;
