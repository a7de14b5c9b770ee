//! What the words of promises come to in plainer words, for all inputs.
#![tactic(auto)]

pub mod laws;
