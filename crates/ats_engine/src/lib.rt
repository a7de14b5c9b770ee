//! The engine: it runs a network for a list of releases, event by event, under any lawful tie, order of simultaneous
//! events and pace.
#![tactic(auto)]

pub mod engine;
mod entering;
mod offering;
mod opening;
mod rooms;
mod runner;

pub use engine::Engine;
