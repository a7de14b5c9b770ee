//! Moments.

use ats_num::Ps;

/// A moment of a run: its time in picoseconds, its phase (`phase`), and a number that tells apart
/// what happens at one time in one phase: that of a frame, or in the phase of selection that of a
/// port.
#[derive(Clone, Copy, Debug, PartialEq, Eq)]
pub struct Moment {
    pub at: Ps,
    // phase and number stand as the lower half of one number, so that they are read and copied at once
    pub id: u32,
    pub phase: u32,
}
