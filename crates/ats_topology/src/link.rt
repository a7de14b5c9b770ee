//! Links of a network.

use ats_num::Name;

/// The most links of a network.
pub const MAX_LINKS: usize = 2048;

/// The greatest propagation time of a link, in nanoseconds.
pub const MAX_PROPAGATION_NS: u32 = 1_000_000;

/// A full-duplex link between the nodes named `a` and `b`.
#[derive(Clone, Copy, Debug, PartialEq, Eq)]
pub struct Link {
    pub a: Name,
    pub b: Name,
    /// The rate in megabits per second; `ps_per_bit` tells which rates a link may have.
    pub mbps: u32,
    /// The propagation time, 0 to 1,000,000 ns.
    pub propagation_ns: u32,
}
