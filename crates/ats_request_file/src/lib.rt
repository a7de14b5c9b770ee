//! Request files: what is asked of an admission controller, over a network.
#![tactic(auto)]

pub mod fault;
pub mod laws;
mod line;
pub mod reading;
mod words;

pub use fault::RequestFault;
pub use line::MAX_REQUESTS;
pub use reading::read_requests;
