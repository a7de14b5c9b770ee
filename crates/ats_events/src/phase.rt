//! The phases of a moment. Of what happens at one time, the lesser phase comes first.

/// A transmission ends.
pub const TRANSMISSION_END: u32 = 0;

/// A frame arrives at a node or is released by a talker.
pub const ARRIVAL: u32 = 1;

/// A frame becomes eligible.
pub const ELIGIBLE: u32 = 2;

/// A port selects a frame for transmission.
pub const SELECTION: u32 = 3;
