//! What a regulator remembers of a stream.

use ats_num::Ps;

/// The frame of a stream that its group accepted last.
#[derive(Clone, Copy, Debug, PartialEq, Eq)]
pub struct LastFrame {
    /// When it was eligible.
    pub eligible: Ps,
    /// Its wire bits.
    pub bits: u64,
}
