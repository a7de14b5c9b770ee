//! How far a frame is along a leg.

use ats_num::Ps;

/// How far a frame is on its way along a leg.
#[derive(Clone, Copy, Debug, PartialEq, Eq)]
pub enum Stage {
    /// It has not come to where the leg begins, which is a branch.
    Apart,
    /// It comes to the next port of the leg at this time, from when the port before sends it on; and to the first one
    /// of the trunk when it is released.
    Coming(Ps),
    /// It came to a port, where it becomes eligible at this time.
    Due(Ps),
    /// A port holds it.
    Waiting,
    /// Its way along the leg has ended.
    Over,
}
