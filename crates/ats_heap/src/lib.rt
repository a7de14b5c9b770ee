//! A heap: items of which one that goes before all others is found at once, in arrays taken when it is opened.
#![tactic(auto)]

pub mod heap;
mod joining;
mod line;
pub mod precedence;
mod sift;
mod tree;

pub use heap::Heap;
pub use precedence::Precedence;
