//! What the senders of a network make of each port and class, the bounds of a certificate by port and class with their
//! sums along the routes of streams, and the searches for the first load, wait or sum that a network can't bear.
#![tactic(auto)]

pub mod bounds;
pub mod class_sums;
pub mod class_tallies;
pub mod delays;
pub mod laws;
pub mod needs;
pub mod reason;
pub mod searches;
pub mod seen;
pub mod share;
pub mod shares;
pub mod tallies;
pub mod tally;
pub mod waits;

pub use bounds::Bounds;
pub use class_sums::ClassSums;
pub use class_tallies::{tallies_at, tallies_of};
pub use delays::Delays;
pub use needs::need_behind;
pub use reason::Reason;
pub use searches::{first_late, first_overload, first_overstay, listener_name};
pub use seen::SeenSender;
pub use share::Share;
pub use shares::{enter_along, shares_of};
pub use tallies::Tallies;
pub use tally::Tally;
pub use waits::least_wait;
