//! Ports of a network.

ghost use Rattle.std.specs.Prelude.{◌≡◌};
ghost use Rattle.ats_topology.specs.Port.{spread_of};

use ats_num::Ps;

/// One direction of a link: the port of node `from` that sends to node `to`. Both are node numbers.
#[derive(Clone, Copy, Debug, PartialEq, Eq)]
pub struct Port {
    pub from: u32,
    pub to: u32,
    /// The picoseconds that one bit takes, 10 to 100,000.
    pub ps_per_bit: u32,
    /// The least picoseconds from the end of a transmission to the frame's arrival: the propagation
    /// of the link, and the least processing of the bridge that the port leads to (a station adds
    /// none). At most the latency.
    pub earliest: Ps,
    /// The most picoseconds from the end of a transmission to the frame's arrival, 0 to
    /// 2,000,000,000: the propagation of the link, and the greatest processing of that bridge.
    pub latency: Ps,
}

impl Port {
    /// The spread: by how many picoseconds a frame may arrive behind the port after the earliest
    /// moment.
    pub fn spread(&self) -> u64
        ensures { result ≡ spread_of self.now }
    {
        self.latency.0.saturating_sub(self.earliest.0)
    }
}
