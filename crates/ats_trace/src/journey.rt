//! What happens to one frame.

use ats_num::Ps;

/// A frame that a talker releases.
#[derive(Clone, Copy, Debug, PartialEq, Eq)]
pub struct Release {
    /// When the frame is released.
    pub at: Ps,
    /// The number of its sender.
    pub sender: u32,
    /// Its octets, counted with the frame check sequence, 64 to 2000.
    pub octets: u32,
}

/// How a frame's journey ended.
#[derive(Clone, Copy, Debug, PartialEq, Eq)]
pub enum Ending {
    /// It arrived at its listener at this time.
    Sink(Ps),
    /// A bridge discarded it.
    Discard,
}

/// The row of one leg of a frame in a run.
#[derive(Clone, Copy, Debug, PartialEq, Eq)]
pub struct Journey {
    /// The frame's release.
    pub release: Release,
    /// How it ended along the leg.
    pub ending: Ending,
}

/// Where the hop records of one leg of a frame stand among those of a run.
#[derive(Clone, Copy, Debug, PartialEq, Eq)]
pub struct Span {
    /// The place of the first.
    pub first: u32,
    /// The number of the leg among those of the frame's sender: 0 for the trunk.
    pub leg: u16,
    /// How many there are: one for each port of the leg that the frame came to.
    pub count: u8,
    /// How many there is room for: one for each port of the leg.
    pub room: u8,
}
