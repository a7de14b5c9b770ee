//! The members of groups.

use ats_streams::Declared;

/// The greatest maximum residence time of a group, in nanoseconds.
pub const MAX_RESIDENCE_NS: u32 = 1_000_000_000;

/// A stream that a group receives.
#[derive(Clone, Copy, Debug, PartialEq, Eq)]
pub struct Member {
    /// The number of the group: its place in the list of maximum residence times.
    pub group: u32,
    /// What is declared of the stream.
    pub declared: Declared,
}
