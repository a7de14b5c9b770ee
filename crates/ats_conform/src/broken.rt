//! How a release breaks what its sender declares.

use ats_num::Fault;

/// The first release that breaks what its sender declares. Frames are numbered from 0 in the order of their releases.
#[derive(Clone, Copy, Debug, PartialEq, Eq)]
pub enum Broken {
    /// Its octets are outside its sender's declared sizes.
    Size {
        /// Its number.
        frame: u32,
    },
    /// Its octets are a declared size, but its stream's bucket does not hold its bits.
    Bucket {
        /// The number of the frame of its stream from which on it exceeds the bucket by most bits, the earliest of
        /// these. It is one before this frame, which the burst covers alone.
        since: u32,
        /// Its number.
        frame: u32,
    },
}

impl Fault for Broken {}
