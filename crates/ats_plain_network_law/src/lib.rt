//! What the words of networks, of their groups and of what bridges are told come to in plainer words.
#![tactic(auto)]

pub mod laws;
