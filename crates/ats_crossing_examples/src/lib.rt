//! Frames where a rule for links, groups or releases meets a frame that begins at a bridge, ends there or is discarded
//! there, on closed runs.
#![tactic(auto)]

pub mod laws;
