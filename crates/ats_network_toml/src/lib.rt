//! What a network file declares in its tables, or its first fault of form.
#![tactic(auto)]

mod arrays;
pub mod document;
pub mod entries;
pub mod reading;
mod tables;

pub use document::{Document, Parts};
pub use entries::{
    BridgeEntry, FlowEntry, LinkEntry, LinkLocalEntry, LinkLocalFlowEntry, Route, Routes,
    StationEntry, StreamEntry, StreamNumbers,
};
pub use reading::read_document;
