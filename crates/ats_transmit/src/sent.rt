//! Transmissions.

use ats_num::Ps;

/// A transmission of a port: the frame's number, the number of its sender, its class from 0 to 7, its octets, the time
/// from which it was eligible, and when it started and ended, in picoseconds. The end includes the gap between frames.
#[derive(Clone, Copy, Debug, PartialEq, Eq)]
pub struct Sent {
    pub frame: u32,
    pub sender: u32,
    pub class: u8,
    pub octets: u32,
    pub eligible: Ps,
    pub start: Ps,
    pub end: Ps,
}
