//! Which answer is due to each command, case by case by the bytes of its files, and what a call
//! says that it did.
#![tactic(auto)]

pub mod laws;
