//! What may be asked of an admission controller, and what it answers.
#![tactic(auto)]

pub mod answer;
pub mod denied;
pub mod laws;
pub mod request;

pub use answer::Answer;
pub use denied::Denied;
pub use request::Request;
