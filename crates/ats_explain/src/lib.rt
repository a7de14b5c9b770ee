//! Why the least bounds of a network are as large as they are.
#![tactic(auto)]

pub mod explanation;
pub mod laws;
mod loads;
pub mod margin;
mod names;
pub mod parts;
mod rows;
pub mod totals;

pub use explanation::Explanation;
pub use margin::Margin;
pub use parts::{Parts, Stay};
pub use totals::{Tightest, Totals};
