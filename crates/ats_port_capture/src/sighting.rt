//! What a capture tells of a transmission.

use ats_num::Ps;

/// A transmission of a port, as a capture tells of it.
#[derive(Clone, Copy, Debug, PartialEq, Eq)]
pub struct Sighting {
    /// When it started.
    pub start: Ps,
    /// The octets of its frame, counted with the frame check sequence.
    pub octets: u32,
    /// The number of the frame's sender.
    pub sender: u32,
    /// The frame's class at the port, 0 to 7.
    pub class: u8,
}
