//! One scheduler of Asynchronous Traffic Shaping, and lists that conform to a token bucket.
#![tactic(auto)]

pub mod laws;
pub mod scheduler;

pub use scheduler::Scheduler;
