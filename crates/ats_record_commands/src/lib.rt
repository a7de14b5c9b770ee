//! The commands that show others what can happen in a network: the bytes that each comes to, or the stop in its place.
#![tactic(auto)]

pub mod record_command;
pub mod witness_command;

pub use record_command::record;
pub use witness_command::witness;
