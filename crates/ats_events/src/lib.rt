//! Events in the order of time: moments, the lawful orders of moments, an agenda of what is still
//! to happen, and the loop that handles it.
#![tactic(auto)]

pub mod actor;
pub mod agenda;
pub mod laws;
pub mod moment;
pub mod order;
pub mod phase;

pub use actor::{Actor, drive};
pub use agenda::Agenda;
pub use moment::Moment;
pub use order::{Down, Scrambled, TimeOrder, Up};
