//! The outside of the simulator: files that are read by name and a sink that takes text, each with a count of faults;
//! the reads that were made; whole reads and writes; lines of a text.
#![tactic(auto)]

pub mod fault;
pub mod files;
pub mod mem_files;
pub mod mem_sink;
mod plan;
pub mod reads;
pub mod sink;
pub mod sure;
pub mod text;
pub mod whole;

pub use fault::{Failed, ReadFault};
pub use files::{Files, MAX_PLACE};
pub use mem_files::MemFiles;
pub use mem_sink::MemSink;
pub use reads::{ReadCall, Reads};
pub use sink::Sink;
pub use sure::{SureFiles, SureSink};
pub use text::line_at;
pub use whole::{read_whole, write_all};
