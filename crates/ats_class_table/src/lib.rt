//! Tables with a value for each port and class.
#![tactic(auto)]

pub mod table;

pub use table::{CLASSES, PortClassTable};
