//! What is told of a frame along a leg.

use ats_num::Ps;
use ats_trace::HopRecord;

/// What is told of a frame along a leg, one after another.
#[derive(Clone, Copy, Debug, PartialEq, Eq)]
pub(crate) enum Told {
    /// It came to the next port of the leg, with this record.
    Came(HopRecord),
    /// Its transmission there starts and ends at these times.
    Sent(Ps, Ps),
}
