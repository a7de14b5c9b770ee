//! What each answer that is due to a command says of the bytes that are told, and what is printed where a file fails.
#![tactic(auto)]

pub mod laws;
pub mod run_laws;
pub mod say_laws;
