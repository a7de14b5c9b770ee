//! What a port does next.

use ats_num::Ps;

/// What a port does next.
#[derive(Clone, Copy, Debug, PartialEq, Eq)]
pub enum Turn {
    /// Nothing: it holds no frame.
    Resting,
    /// It holds a frame, and selects one at this time, by which its last transmission has ended.
    Selecting(Ps),
}
