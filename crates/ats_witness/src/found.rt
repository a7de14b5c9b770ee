//! What is found of a stream.

ghost use Rattle.std.specs.Prelude.{◌≡◌, slice_index};
ghost use Rattle.ats_witness.specs.Found.{IsFirstGreatest, found_delays};

use ats_trace::Release;
use std::marker::Model;

/// What is found of a stream for a listener: for each port of the route there a delay, the first hop at which the delay
/// is greatest, and the releases of the burst at the port of this hop. Contracts see the delays in picoseconds, the
/// hop, and the releases.
#[derive(Drop)]
pub struct Found {
    by_hop: Vec<u64>,
    place: u32,
    schedule: Vec<Release>,
}

impl Model for Found {
    ghost use Rattle.ats_witness.specs.Found.{FoundDelays, IsFirstGreatest, found_delays};

    ghost Value = { FoundDelays };

    ghost view = { λ f. found_delays f.by_hop.items f.place f.schedule.items };

    ghost invariant = { λ f. IsFirstGreatest f.by_hop.items f.place };
}

impl Found {
    /// These delays, of which the one with this number is the first of the greatest, and these releases.
    pub(crate) fn new(by_hop: Vec<u64>, place: u32, schedule: Vec<Release>) -> Found
        requires { IsFirstGreatest by_hop.items place }
        ensures { result ≡ found_delays by_hop.items place schedule.items }
    {
        Found {
            by_hop,
            place,
            schedule,
        }
    }

    /// The delay found at each port of the route, in order, in picoseconds.
    pub fn delays(&self) -> &[u64]
        ensures value { result.now ≡ self.now.delays }
        ensures first { IsFirstGreatest self.now.delays self.now.hop }
    {
        self.by_hop.as_slice()
    }

    /// The first hop of the route, counted from 0, at which the delay found is greatest.
    pub fn hop(&self) -> u32
        ensures value { result ≡ self.now.hop }
        ensures first { IsFirstGreatest self.now.delays self.now.hop }
    {
        self.place
    }

    /// The greatest delay found, in picoseconds.
    pub fn greatest(&self) -> u64
        ensures value { result ≡ slice_index self.now.delays self.now.hop }
        ensures first { IsFirstGreatest self.now.delays self.now.hop }
    {
        self.by_hop[self.place as usize]
    }

    /// The releases of the burst at the port of that hop, in order.
    pub fn releases(&self) -> &[Release]
        ensures { result.now ≡ self.now.releases }
    {
        self.schedule.as_slice()
    }
}
