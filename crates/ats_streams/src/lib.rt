//! Declared streams and flows, and the rules that they keep.
#![tactic(auto)]

pub mod branch;
pub mod classes;
pub mod fault;
pub mod flow;
pub mod laws;
pub mod path;
pub mod route;
pub mod rules;
pub mod stream;
pub mod traffic;

pub use branch::Branch;
pub use fault::StreamFault;
pub use flow::Flow;
pub use route::Route;
pub use rules::{are_sizes, covers_longest, is_burst, is_frame_size, keeps_rules};
pub use stream::{Stream, is_identity};
pub use traffic::Declared;
