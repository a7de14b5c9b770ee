//! Tests of runs: their records, the texts that are printed of them, releases that are made and
//! releases that are metered. There is nothing else here, so that the crates below are
//! proved without tests.
#![tactic(auto)]

#[cfg(test)]
mod made;
#[cfg(test)]
mod meters;
#[cfg(test)]
mod records;
#[cfg(test)]
mod replays;
#[cfg(test)]
mod runs;
