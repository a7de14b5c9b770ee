//! What the transmissions of a port are, and the rule that a port keeps: one frame after another, each to its end, the
//! highest class first, and in a class by eligibility time (IEEE Std 802.1Q, transmission selection; IEEE Std 802.1Qcr,
//! ATS transmission selection). Two parts speak of it: the port that sends, and the runs of a whole network.
#![tactic(auto)]

pub mod laws;
pub mod time;

pub use time::transmission_time;
