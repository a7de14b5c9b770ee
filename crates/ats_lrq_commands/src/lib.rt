//! The commands of the other regulator: the text that each comes to, or the stop in its place.
#![tactic(auto)]

pub mod bound_command;
pub mod check_command;
pub mod shape_command;

pub use bound_command::lrq_bound;
pub use check_command::lrq_check;
pub use shape_command::lrq_shape;
