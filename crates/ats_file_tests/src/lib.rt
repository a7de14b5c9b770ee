//! Tests of what is read of captures and schedules. There is nothing else here, so that the crates
//! below are proved without tests.
#![tactic(auto)]

#[cfg(test)]
mod capture_files;
#[cfg(test)]
mod captures;
#[cfg(test)]
mod schedules;
