//! Ports as they are written in files and texts.
#![tactic(auto)]

pub mod laws;
pub mod port_names;
pub mod writing;

pub use port_names::PortNames;
pub use writing::write_port;
