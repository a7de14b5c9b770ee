//! What is printed of the buffers of a certificate's rows.
#![tactic(auto)]

pub mod listing;

pub use listing::listed;
