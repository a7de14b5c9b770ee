//! The one call that the program makes.
#![tactic(auto)]

pub mod call;

pub use call::ats;
