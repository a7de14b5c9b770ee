//! One table of a network file: its keys, what stands with each, or its first fault of form.
#![tactic(auto)]

pub mod fault;
pub mod format;
pub mod key;
mod kinds;
pub mod section;
mod slots;
pub mod table;

pub use fault::DocumentFault;
pub use format::Format;
pub use key::Key;
pub use section::Section;
pub use table::Table;
