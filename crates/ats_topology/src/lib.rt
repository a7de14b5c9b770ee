//! Networks as nodes, links and numbered ports, and the walks between nodes.
#![tactic(auto)]

mod checks;
mod clocks;
pub mod fault;
pub mod kept_walks;
pub mod laws;
pub mod link;
pub mod node;
mod numbering;
pub mod port;
mod port_table;
pub mod rates;
mod stations;
pub mod topology;
mod walks;

pub use fault::TopologyFault;
pub use kept_walks::KeptWalks;
pub use link::Link;
pub use node::{Kind, Node};
pub use port::Port;
pub use rates::ps_per_bit;
pub use topology::Topology;
