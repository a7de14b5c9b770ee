//! Networks: nodes, links and ports, and the streams and flows that are declared over them.
#![tactic(auto)]

pub mod fault;
mod flow_table;
pub mod laws;
pub mod network;
pub mod paths;
pub mod rates;
pub mod routes;
pub mod sender;
mod stream_table;

pub use fault::PushFault;
pub use network::Network;
pub use paths::{is_valid_path, joins_stations, station_of};
pub use rates::{committed_at, is_overrated, scheduled_at};
pub use routes::{shortest, shortest_kept};
pub use sender::Sender;
