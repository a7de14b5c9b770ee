//! What the settings of a network's bridges tell: all that a bridge needs to judge frames as the
//! network's groups do.
#![tactic(auto)]

pub mod laws;
