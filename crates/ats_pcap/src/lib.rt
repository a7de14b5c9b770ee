//! Captures as bytes: a reader that is fed a capture piece by piece, and the records that it finds.
#![tactic(auto)]

pub mod fault;
pub mod form;
mod front;
mod progress;
pub mod reader;
pub mod record;

pub use fault::CaptureFault;
pub use reader::Reader;
pub use record::{Record, identify};
