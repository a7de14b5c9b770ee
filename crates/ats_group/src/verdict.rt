//! What a group decides on a frame.

use ats_num::Ps;

/// The verdict on a frame that arrives at a group.
#[derive(Clone, Copy, Debug, PartialEq, Eq)]
pub enum Verdict {
    /// The frame is eligible at this time.
    Eligible(Ps),
    /// The frame would be eligible at this time, after the maximum residence time, and is discarded.
    Late(Ps),
    /// The frame's octets are outside its stream's declared sizes, and it is discarded.
    Size,
}
