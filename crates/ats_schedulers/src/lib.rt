//! The schedulers of a network: the maximum residence time of each group, the members of all groups,
//! and which member a stream's frame meets at a hop.
#![tactic(auto)]

pub mod laws;
mod lists;
pub mod schedulers;

pub use schedulers::Schedulers;
