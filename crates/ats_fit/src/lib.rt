//! What releases need of what their senders declare: for each stream the least burst with which they conform to its
//! rate, and for each sender the sizes of its frames.
#![tactic(auto)]

mod deficit;
pub mod fitting;
mod gauge;
pub mod laws;
pub mod measured;
pub mod over;

pub use fitting::fit;
pub use measured::{Measured, Sizes};
pub use over::{declared_burst, senders_over};
