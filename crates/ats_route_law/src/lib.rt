//! The laws of the port before: all routes of a sender come to a port in the same way, and its rates and bursts go from
//! one port to the next.
#![tactic(auto)]

pub mod laws;
