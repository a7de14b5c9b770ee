//! What a certificate that holds promises of what ports hold in each legal run of its network.
#![tactic(auto)]

pub mod laws;
pub mod worked;
