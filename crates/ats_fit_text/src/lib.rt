//! What is printed of what is measured of releases.
#![tactic(auto)]

pub mod printing;

pub use printing::fitted;
