//! Answers to requests.

use crate::denied::Denied;

/// What an admission controller answers to a request.
#[derive(Clone, Copy, Debug, PartialEq, Eq)]
pub enum Answer {
    /// The stream was admitted.
    Admitted {
        /// Its class at the first of its ports.
        class: u8,
        /// The sum of its least bounds, in picoseconds.
        sum: u128,
    },
    /// The stream was taken out.
    Withdrawn,
    /// Nothing changed, for this cause.
    Refused(Denied),
}
