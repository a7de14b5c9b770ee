//! Tests of whole calls of the program in which a read or a write fails or room is short, of the
//! adapters to the system, of limits that a network file reaches before, and of rows that no
//! certificate file has. There is nothing else here, so that the crates below are proved without
//! tests.
#![tactic(auto)]

#[cfg(test)]
mod calls;
#[cfg(test)]
mod certificates;
#[cfg(test)]
mod fixtures;
#[cfg(test)]
mod limits;
#[cfg(test)]
mod system;
