//! What the senders of one class make at a port.

ghost use Rattle.std.specs.Prelude.{◌≡◌};
ghost use Rattle.ats_tally.specs.SenderAtPort.{port_sender, KeepsLimits};
ghost use Rattle.ats_tally.specs.Shares.{no_share, share_with, IsLimited};

use crate::seen::SeenSender;
use crate::tally::{MAX_SENDERS, least_with};
use ats_num::wire_bits;

/// What the senders of one class make that were counted.
#[derive(Clone, Copy)]
pub struct Share {
    /// Their rates, in bits per second.
    pub rate: u64,
    /// Their bursts, in bits.
    pub bursts: u64,
    /// The wire bits of their longest frame; 0 where no sender was counted.
    pub longest: u64,
    /// The wire bits of their shortest frame; `None` where no sender was counted.
    pub shortest: Option<u64>,
}

impl Share {
    /// No sender.
    pub fn new() -> Self
        ensures { result ≡ no_share }
    {
        Share {
            rate: 0,
            bursts: 0,
            longest: 0,
            shortest: None,
        }
    }

    /// With one sender more.
    pub fn with_sender(self, sender: &SeenSender) -> Self
        requires limits { KeepsLimits sender.now }
        requires room { IsLimited MAX_SENDERS self }
        ensures { result ≡ share_with (port_sender sender.now) self }
    {
        Share {
            rate: self.rate + sender.rate_bps,
            bursts: self.bursts + sender.burst_bits,
            longest: self.longest.max(wire_bits(sender.max_octets)),
            shortest: Some(least_with(self.shortest, wire_bits(sender.min_octets))),
        }
    }
}
