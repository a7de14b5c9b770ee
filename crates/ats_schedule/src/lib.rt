//! Schedule files: the releases that a file declares for a network, and the text of releases.
#![tactic(auto)]

pub mod fault;
pub mod laws;
pub mod reading;
mod recent;
mod release;
pub mod writing;

pub use fault::ScheduleFault;
pub use reading::read_schedule;
pub use writing::write_schedule;
