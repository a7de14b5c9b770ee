//! The commands that tell how much ports must be able to hold: the text that each comes to, or the stop in its place.
#![tactic(auto)]

pub mod buffers_command;
mod judging;
pub mod peaks_command;

pub use buffers_command::buffers;
pub use peaks_command::peaks;
