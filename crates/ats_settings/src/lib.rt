//! What to set in each bridge of a network: for each stream and flow and each port by which its frames leave a bridge,
//! where they come from, which scheduler judges them, how long they may be, and where they go on.
#![tactic(auto)]

mod before;
pub mod laws;
pub mod listing;
pub mod setting;

pub use before::place_before;
pub use listing::settings;
pub use setting::{Setting, Shaping};
