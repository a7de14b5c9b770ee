//! Certificates of delay bounds: what their rows say, and when a certificate holds for a network.
#![tactic(auto)]

pub mod certificate;
pub mod laws;
pub mod row;

pub use certificate::Certificate;
pub use row::Row;
