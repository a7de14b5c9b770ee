//! What the answers that are due mean, in words of networks, rows and runs, and that just one is due; and what comes of
//! calls over an outside that never fails.
#![tactic(auto)]

pub mod call;
pub mod laws;

pub use call::ats_surely;
