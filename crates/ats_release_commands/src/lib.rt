//! The commands about releases: the text that each comes to, or the stop in its place.
#![tactic(auto)]

pub mod fit_command;
pub mod releases_command;

pub use fit_command::fit;
pub use releases_command::releases;
