//! What is kept of a network that streams enter and leave, so that each is judged along its own ports.
#![tactic(auto)]

mod busy;
mod entering;
pub mod kept;
mod late;
pub mod laws;
mod opening;
mod ports;
pub mod routes;
mod spares;
mod sums;
mod walks;

pub use kept::Kept;
pub use routes::Route;
