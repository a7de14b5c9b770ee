//! A class queue: the frames that wait at a port in one class, of which the one that became eligible first goes first
//! (IEEE Std 802.1Qcr, ATS transmission selection).
#![tactic(auto)]

pub mod queue;
pub mod queued;

pub use queue::ClassQueue;
pub use queued::Queued;
