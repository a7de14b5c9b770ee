//! CSV files as lists of records: a reader that takes one record at a time, and the plain text of records.
#![tactic(auto)]

pub mod laws;
pub mod records;
pub mod writing;

pub use records::{Records, Taken};
pub use writing::{Field, push_record};
