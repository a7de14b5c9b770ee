//! The commands that run a network: the text that each comes to, or the stop in its place.
#![tactic(auto)]

pub mod capture_command;
pub mod generate_command;
pub mod replay_command;

pub use capture_command::capture;
pub use generate_command::generate;
pub use replay_command::replay;
