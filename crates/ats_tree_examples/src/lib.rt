//! Worked networks whose streams have several listeners, and what is proved of them.
#![tactic(auto)]

pub mod bound_laws;
pub mod network_laws;
pub mod run_laws;
pub mod soundness_laws;
