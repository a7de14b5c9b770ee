//! Network files: the network that a text declares, or its first fault.
#![tactic(auto)]

pub mod fault;
mod flows;
mod kept_routes;
mod kept_steps;
pub mod laws;
mod link_local;
mod nodes;
pub mod reading;
mod routes;
pub mod senders;
mod streams;

pub use fault::NetFault;
pub use reading::read_network;
pub use senders::{Place, SenderTable};
