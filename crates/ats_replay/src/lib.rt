//! The texts of a run: what happened to each frame of a network, what came of each sender's frames, and how many frames
//! there were.
#![tactic(auto)]

pub mod ended;
mod journey;
pub mod laws;
mod line;
mod lines;
pub mod printing;
pub mod reporting;
mod room;
pub mod summary;
pub mod totals;
mod ways;

pub use ended::Ended;
pub use printing::departures;
pub use reporting::report;
pub use summary::Summary;
pub use totals::Totals;
