//! The records of a run while it is made: each frame's release, and along each of its legs what was recorded of it at
//! each hop that it came to, and its ending, once it has one; kept whole, or no more than the run goes by. All memory
//! is taken when they are opened.
#![tactic(auto)]

pub mod brief;
pub mod ends;
mod opening;
pub mod records;
pub mod store;
mod told;
mod track;
mod tracks;
pub mod whole;

pub use brief::Brief;
pub use ends::Ends;
pub use opening::MAX_ROOM;
pub use records::Records;
pub use store::Store;
pub use whole::Whole;
