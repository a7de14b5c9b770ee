//! Tests of request files, of sessions that answer requests, and of what is printed of a network
//! with a branch. There is nothing else here, so that the crates below are proved without tests.
#![tactic(auto)]

#[cfg(test)]
mod admission;
#[cfg(test)]
mod listeners;
#[cfg(test)]
mod requests;
