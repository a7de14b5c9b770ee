//! The certificate with the least waits, or why no certificate holds for a network.
#![tactic(auto)]

pub mod laws;
pub mod least;
pub mod listing;
pub mod rows;

pub use least::make;
pub use listing::least_rows;
pub use rows::{is_used, row, row_of};
