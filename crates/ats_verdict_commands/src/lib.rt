//! The commands that judge what files declare: the text that each comes to, or the stop in its place.
#![tactic(auto)]

pub mod admit_command;
pub mod bound_command;
pub mod check_command;
pub mod conform_command;
pub mod explain_command;
pub mod settings_command;
pub mod shape_command;
pub mod show_command;

pub use admit_command::admit;
pub use bound_command::bound;
pub use check_command::check;
pub use conform_command::conform;
pub use explain_command::explain;
pub use settings_command::settings;
pub use shape_command::shape;
pub use show_command::show;
