//! Nodes of a network.

ghost use Rattle.std.specs.Prelude.{◌≡◌, ◌↔◌, IsTrue};
ghost use Rattle.ats_clock.specs.Clock.{IsClock, ideal};
ghost use Rattle.ats_topology.specs.Node.{clock_of, is_station, least_processing_of, greatest_processing_of};

use ats_clock::Clock;
use ats_num::Name;

/// The most nodes of a network.
pub const MAX_NODES: usize = 1024;

/// The limit of the greatest processing time of a bridge, in nanoseconds.
pub const MAX_PROCESSING_NS: u32 = 1_000_000;

/// The limit of the maximum residence time of a bridge, in nanoseconds.
pub const MAX_RESIDENCE_NS: u32 = 1_000_000_000;

/// What a node is.
#[derive(Clone, Copy, Debug, PartialEq, Eq)]
pub enum Kind {
    /// An end station, which has exactly one link.
    Station,
    /// A bridge (IEEE Std 802.1Q).
    Bridge {
        /// The least time from the end of a frame's reception to its arrival at the next port, at
        /// most the greatest.
        processing_min_ns: u32,
        /// The greatest such time, 0 to 1,000,000 ns.
        processing_max_ns: u32,
        /// The maximum residence time, 0 to 1,000,000,000 ns (IEEE Std 802.1Qcr, MaxResidenceTime).
        residence_ns: u32,
        /// The greatest deviation of the rate of its schedulers' clock, 0 to 1000 parts in a million (IEEE Std
        /// 802.1Qcr, ClockRateDeviationMax).
        clock_ppm: u32,
        /// The step of that clock, 0 to 10,000,000 ps: what it may gain or lose beside its rate between any two times.
        clock_step_ps: u32,
    },
}

/// A node of a network, with its name.
#[derive(Clone, Copy, Debug, PartialEq, Eq)]
pub struct Node {
    pub name: Name,
    pub kind: Kind,
}

impl Kind {
    /// Whether this is a station.
    pub fn is_station(&self) -> bool
        ensures { result ≡ is_station self.now }
    {
        match self {
            Kind::Station => true,
            Kind::Bridge { .. } => false,
        }
    }

    /// The least processing time in nanoseconds; a station has none.
    pub fn processing_min_ns(&self) -> u32
        ensures { result ≡ least_processing_of self.now }
    {
        match self {
            Kind::Station => 0,
            Kind::Bridge {
                processing_min_ns,
                ..
            } => *processing_min_ns,
        }
    }

    /// The greatest processing time in nanoseconds; a station has none.
    pub fn processing_max_ns(&self) -> u32
        ensures { result ≡ greatest_processing_of self.now }
    {
        match self {
            Kind::Station => 0,
            Kind::Bridge {
                processing_max_ns,
                ..
            } => *processing_max_ns,
        }
    }

    /// The clock that its schedulers go by; a station has the ideal one.
    pub fn clock(&self) -> Clock
        requires { IsClock (clock_of self.now) }
        ensures { result ≡ clock_of self.now }
    {
        match self {
            Kind::Station => Clock::ideal(),
            Kind::Bridge {
                clock_ppm,
                clock_step_ps,
                ..
            } => match Clock::new(u64::from(*clock_ppm), u64::from(*clock_step_ps)) {
                Some(clock) => clock,
                None => Clock::ideal(),
            },
        }
    }

    /// Whether this clock is the ideal one.
    pub fn has_ideal_clock(&self) -> bool
        ensures { IsTrue result ↔ clock_of self.now ≡ ideal }
    {
        match self {
            Kind::Station => true,
            Kind::Bridge {
                clock_ppm,
                clock_step_ps,
                ..
            } => *clock_ppm == 0 && *clock_step_ps == 0,
        }
    }
}
