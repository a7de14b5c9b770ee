//! What the senders of each class make at each port of a network, kept while streams come and go.
#![tactic(auto)]

mod at_port;
mod frames;
mod leaving;
pub mod port_shares;

pub use port_shares::PortShares;
