//! Admission: a network that streams ask to enter and leave.
#![tactic(auto)]

mod admitting;
mod entering;
mod judging;
pub mod session;

pub use session::Session;
