//! Found delays: what a stated burst at each port of a stream does to the stream's frames, beside the bound on
//! what can happen.
#![tactic(auto)]

pub mod burst;
pub mod delay;
mod finding;
pub mod found;
pub mod last;
mod participant;

pub use burst::releases;
pub use delay::worst;
pub use finding::witness;
pub use found::Found;
pub use last::Last;
pub use participant::MAX_BURST_FRAMES;
