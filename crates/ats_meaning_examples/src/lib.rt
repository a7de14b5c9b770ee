//! What words say that laws only conclude, or only ask for.
#![tactic(auto)]

pub mod laws;
