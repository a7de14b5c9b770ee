//! Which paths use each port of a topology.
#![tactic(auto)]

pub mod entry;
pub mod port_users;

pub use port_users::PortUsers;
