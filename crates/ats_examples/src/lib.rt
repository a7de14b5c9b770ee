//! Worked networks, certificates and runs, and what is proved of them.
#![tactic(auto)]

pub mod clock_laws;
pub mod group_laws;
pub mod port_laws;
pub mod rate_laws;
pub mod run_laws;
pub mod soundness_laws;
