//! The steps of a run of a network: where it stands between two events, and what each kind of event makes of that.
#![tactic(auto)]

pub mod event;
mod judging;
mod leaving;
mod legs;
mod offering;
pub mod stage;
pub mod stages;
pub mod state;
pub mod steps;
pub mod turn;

pub use event::Event;
pub use stage::Stage;
pub use stages::Stages;
pub use state::State;
pub use steps::{become_eligible, come, row_begun, select};
pub use turn::Turn;
