//! The judgement of a certificate.
#![tactic(auto)]

pub mod judgement;
pub mod laws;
mod places;
pub mod refusal;
mod rows;

pub use judgement::check;
pub use refusal::{Field, Refusal};
