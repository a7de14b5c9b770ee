//! What an accepted certificate promises of each legal run of its network.
#![tactic(auto)]

pub mod laws;
