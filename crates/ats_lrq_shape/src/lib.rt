//! Shape files judged by a length-rate-quotient regulator in the place of a group of schedulers.
#![tactic(auto)]

pub mod verdicts;

pub use verdicts::{judge, report};
