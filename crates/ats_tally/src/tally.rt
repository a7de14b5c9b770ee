//! What senders make of a class.

ghost use Rattle.std.specs.Prelude.{◌≡◌};
ghost use Rattle.ats_tally.specs.SenderAtPort.{port_sender, KeepsLimits};
ghost use Rattle.ats_tally.specs.Tally.{no_tally, least_with, tally_with, IsWithin};

use crate::seen::SeenSender;
use ats_num::wire_bits;

/// The most senders of a network.
pub const MAX_SENDERS: u64 = 8192;

/// What the senders that were counted make of a class.
#[derive(Clone, Copy)]
pub struct Tally {
    /// The rates of the higher classes, in bits per second.
    pub above: u64,
    /// The rates of the class, in bits per second.
    pub equal: u64,
    /// The bursts of the class and the higher ones, in bits.
    pub bursts: u64,
    /// The wire bits of the longest frame of a lower class; 0 where there is none.
    pub lower: u64,
    /// The wire bits of the shortest frame of the class; `None` where no sender is of it.
    pub least: Option<u64>,
}

impl Tally {
    /// No sender.
    pub fn new() -> Self
        ensures { result ≡ no_tally }
    {
        Tally {
            above: 0,
            equal: 0,
            bursts: 0,
            lower: 0,
            least: None,
        }
    }

    /// With one sender more that a port sees.
    pub fn with_sender(self, class: u8, sender: &SeenSender) -> Self
        requires limits { KeepsLimits sender.now }
        requires room { IsWithin MAX_SENDERS self }
        ensures { result ≡ tally_with class (port_sender sender.now) self }
    {
        let mut tally = self;
        tally.count(class, sender);
        tally
    }

    /// Counts one sender more that a port sees.
    pub fn count(&mut self, class: u8, sender: &SeenSender)
        requires limits { KeepsLimits sender.now }
        requires room { IsWithin MAX_SENDERS self.old }
        ensures { self.new ≡ tally_with class (port_sender sender.now) self.old }
    {
        if sender.class < class {
            self.lower = self.lower.max(wire_bits(sender.max_octets));
            return;
        }
        self.bursts += sender.burst_bits;
        if sender.class > class {
            self.above += sender.rate_bps;
            return;
        }
        self.equal += sender.rate_bps;
        self.least = Some(least_with(self.least, wire_bits(sender.min_octets)));
    }
}

/// The smaller of two numbers of bits, of which one may not be there.
pub fn least_with(least: Option<u64>, bits: u64) -> u64
    ensures { result ≡ least_with least bits }
{
    match least {
        Some(least) => least.min(bits),
        None => bits,
    }
}
