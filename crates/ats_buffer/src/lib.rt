//! How much ports must be able to hold of each class, and how much they held in a run.
#![tactic(auto)]

mod legs;
pub mod levels;
pub mod moments;
pub mod row_table;
pub mod shares;

pub use levels::peaks;
pub use shares::buffers;
