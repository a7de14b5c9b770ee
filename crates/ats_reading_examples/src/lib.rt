//! Nearly right keys, numbers in all their bytes and with many digits, and comments.
#![tactic(auto)]

pub mod laws;
