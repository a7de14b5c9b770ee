//! Tests of the engine. There is nothing else here, so that the crates below are proved without
//! tests.
#![tactic(auto)]

#[cfg(test)]
mod engines;
#[cfg(test)]
mod trees;
