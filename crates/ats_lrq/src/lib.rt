//! Length-rate-quotient regulators: the streams that a bridge receives through one port in one class share a group
//! eligibility time, and each frame of a stream waits until the rate has given the bits of the frame before it.
#![tactic(auto)]

pub mod bursts;
pub mod groups;
pub mod last_frame;
pub mod laws;
mod spaced_member;

pub use bursts::narrow;
pub use groups::LrqGroups;
pub use last_frame::LastFrame;
