//! Groups of schedulers: the streams that a bridge receives through one port in one class share a group eligibility
//! time (IEEE Std 802.1Qcr, ATS scheduler groups).
#![tactic(auto)]

pub mod groups;
pub mod laws;
pub mod member;
mod member_scheduler;
pub mod verdict;

pub use ats_streams::Declared;
pub use groups::Groups;
pub use member::Member;
pub use verdict::Verdict;
