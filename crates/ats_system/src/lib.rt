//! The system as an outside: its files by name, with a count of faults for each word of a call, and
//! its standard output.
#![tactic(auto)]

pub mod fault_counts;
pub mod real_files;
pub mod real_sink;

pub use real_files::RealFiles;
pub use real_sink::RealSink;
