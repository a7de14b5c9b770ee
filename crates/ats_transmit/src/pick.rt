//! What a port picks.

use ats_num::Ps;

/// What a port picks at a moment.
#[derive(Clone, Copy, Debug, PartialEq, Eq)]
pub enum Pick {
    /// The transmission of this frame starts, and ends at this time.
    Start { frame: u32, end: Ps },
    /// A transmission is under way, until this time.
    Busy { end: Ps },
    /// No held frame is eligible.
    Idle,
}
