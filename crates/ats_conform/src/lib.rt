//! Whether the releases of talkers conform to what they declare: one meter for one stream, and the judgement of all
//! releases of a network.
#![tactic(auto)]

pub mod broken;
pub mod conformance;
pub mod laws;
pub mod meter;
mod meters;
mod start;

pub use broken::Broken;
pub use conformance::conform;
pub use meter::{Meter, Metered};
