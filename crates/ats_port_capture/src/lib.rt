//! Captures of ports: what a port sent in a run of a network, as a file that packet analysers open.
#![tactic(auto)]

pub mod capture;
mod frame;
mod numbers;
mod record;
mod sending;
pub mod sighting;

pub use capture::file;
