//! Captures over a network: the records of a file that is read through a window, and the releases of
//! a station that records tell of.
#![tactic(auto)]

pub mod counts;
pub mod fault;
pub mod reading;
mod record;
pub mod traffic;

pub use counts::counts_line;
pub use fault::{JoinFault, RecordsFault};
pub use reading::capture_records;
pub use traffic::{StationTraffic, captured};
