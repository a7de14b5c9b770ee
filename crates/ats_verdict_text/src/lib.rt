//! What is printed of a judgement: of a certificate that holds, of one that does not, and of a network for which none
//! holds.
#![tactic(auto)]

pub mod acceptance;
pub mod laws;
mod pieces;
pub mod reasons;
pub mod refusals;
pub mod refused_lines;

pub use acceptance::accepted;
pub use reasons::write_reason;
pub use refusals::write_refusal;
pub use refused_lines::{refused_certificate, refused_network};
