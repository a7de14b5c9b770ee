//! Committed rates.

ghost use Rattle.std.specs.Prelude.{◌≡◌, ◌≤◌, ◌↔◌, ℕ, IsSome, IfSome};
ghost use Rattle.ats_num.specs.Rate.{IsRate};

use std::marker::Model;

/// The greatest committed rate, in bits per second.
pub const MAX_BPS: u64 = 100_000_000_000;

/// The greatest committed burst, in bits.
pub const MAX_BURST_BITS: u64 = 1_000_000_000;

/// A committed rate: 1 to 100,000,000,000 bits per second (IEEE Std 802.1Qcr, CommittedInformationRate).
#[derive(Clone, Copy, Debug, PartialEq, Eq, PartialOrd, Ord, Hash)]
pub struct Rate {
    bps: u64,
}

impl Model for Rate {
    ghost Value = { ℕ };

    ghost view = { λ r. r.bps };

    ghost invariant = { λ r. IsRate r.bps };

    ghost inverse = { λ n. record { bps = n } };
}

impl Rate {
    /// The rate of so many bits per second, or `None` exactly where that is no committed rate.
    pub fn new(bps: u64) -> Option<Self>
        ensures valid { IsSome result ↔ IsRate bps }
        ensures value { IfSome result (λ rate. rate ≡ bps) }
    {
        if bps >= 1 && bps <= MAX_BPS {
            Some(Rate { bps })
        } else {
            None
        }
    }

    /// The rate in bits per second.
    pub fn bps(&self) -> u64
        ensures value { result ≡ self.now }
        ensures valid { IsRate self.now }
    {
        self.bps
    }
}
