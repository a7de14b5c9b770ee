//! Times, in whole picoseconds.

/// The number of picoseconds in a second.
pub const PS_PER_SECOND: u64 = 1_000_000_000_000;

/// The number of picoseconds in a nanosecond.
pub const PS_PER_NS: u64 = 1000;

/// A time that no run reaches, in picoseconds: each time of a run is below it.
pub const END: u64 = 4_000_000_000_000_000_000;

/// A time in whole picoseconds from the start of a run.
#[derive(Clone, Copy, Debug, PartialEq, Eq, PartialOrd, Ord, Hash)]
pub struct Ps(pub u64);
