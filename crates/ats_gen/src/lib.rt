//! Made traffic: releases that a stated generator makes from a seed, by which every talker keeps its buckets.
#![tactic(auto)]

mod draws;
pub mod fault;
pub mod generator;
mod making;

pub use fault::GenFault;
pub use generator::schedule;
