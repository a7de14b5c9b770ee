//! Runs of a network: what happened to each frame, and which runs are legal.
#![tactic(auto)]

pub mod hop_record;
pub mod journey;
pub mod laws;
pub mod run;

pub use hop_record::HopRecord;
pub use journey::{Ending, Journey, Release, Span};
pub use run::{MAX_FRAMES, MAX_HOPS, Run, row_of};
