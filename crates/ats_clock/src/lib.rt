//! Clocks that are not ideal: what a bridge declares of the clock of its schedulers, and what that makes of a committed
//! rate and a committed burst, from bridge to bridge.
#![tactic(auto)]

pub mod clock;
pub mod committed;
pub mod laws;

pub use clock::Clock;
pub use committed::Committed;
