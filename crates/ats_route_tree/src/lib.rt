//! Legs of streams, from the routes to their listeners.
#![tactic(auto)]

pub mod laws;
pub mod legs;
mod steps;

pub use legs::{Legs, legs_of};
