//! The meter of one stream.

ghost use Rattle.std.specs.Prelude.{◌≡◌, ◌↔◌, ◌^◌, ◌<◌, ◌≤◌, [], ◌∷◌, ◌++◌, length, All, IsNone, IfNone, IfSome};
ghost use Rattle.ats_num.specs.declared.wire.TheConstants.{MAX_WIRE_BITS};
ghost use Rattle.ats_bucket.specs.Conforming.{Conforms};
ghost use Rattle.ats_conform.specs.Metering.{Names, counted, metered};

use crate::start::Start;
use ats_history::History;
use ats_num::{Ps, Rate};
use std::marker::Model;

/// A frame that a meter took.
#[derive(Clone, Copy, Debug, PartialEq, Eq)]
pub struct Metered {
    /// Its number.
    pub frame: u32,
    /// When it came.
    pub at: Ps,
    /// Its wire bits.
    pub bits: u64,
}

/// Tells of the frames of one stream, one after another, whether they conform to a token bucket (IEEE Std 802.1Qcr).
/// Contracts see its rate in bits per second, its burst in bits, and the frames that it took, which conform; it keeps
/// none of them but the worst start.
#[derive(Drop)]
pub struct Meter {
    rate: Rate,
    burst_bits: u64,
    taken: History<Metered>,
    sent: u64,
    worst: Option<Start>,
}

impl Model for Meter {
    ghost use Rattle.ats_conform.specs.Metering.{Metering};

    ghost Value = { Metering };

    ghost use Rattle.ats_conform.specs.MeterInside.{IsKept};

    ghost view = { λ m. record { rate = m.rate; burst = m.burst_bits; taken = m.taken.items } };

    ghost invariant = { λ m. IsKept m.rate m.burst_bits m.taken.items m.sent m.worst };
}

impl Meter {
    /// A meter for a token bucket of this committed rate and this burst, which has taken no frame.
    pub fn new(rate: Rate, burst_bits: u64) -> Meter
        ensures { result ≡ record { rate = rate; burst = burst_bits; taken = [] } }
    {
        Meter {
            rate,
            burst_bits,
            taken: History::new(),
            sent: 0,
            worst: None,
        }
    }

    /// Takes the stream's next frame, with its number, its time and its wire bits, where it conforms with those taken
    /// before: `None` exactly there. Else it gives the number of the frame from which on this one exceeds the bucket by
    /// most bits, the earliest of these, which may be this frame itself; and the meter stays as it was. It takes no
    /// memory, and the same time however many frames were taken. Conditions: fewer than 2^32 frames were taken, none of
    /// them is later, and the bits are at most those of the longest frame.
    pub fn take(&mut self, frame: u32, at: Ps, bits: u64) -> Option<u32>
        requires few { length self.old.taken < 2 ^ 32 }
        requires order { All (λ earlier. earlier.at.0 ≤ at.0) self.old.taken }
        requires in_frame { bits ≤ MAX_WIRE_BITS }
        ensures none { IsNone result ↔ Conforms self.old.rate self.old.burst
            (counted (self.old.taken ++ metered frame at.0 bits ∷ [])) }
        ensures taken { IfNone result (self.new
            ≡ record self.old { taken = self.old.taken ++ metered frame at.0 bits ∷ [] }) }
        ensures named { IfSome result (Names self.old.rate self.old.burst self.old.taken (metered frame at.0 bits)) }
        ensures unchanged { IfSome result (λ _. self.new ≡ self.old) }
    {
        let next = Start {
            frame,
            at,
            before: self.sent,
        };
        let worst = Start::worst(self.rate, self.worst, next);
        let sent = self.sent + bits;
        if worst.is_over(self.rate, self.burst_bits, at, sent) {
            return Some(worst.frame);
        }
        self.taken = self.taken.and(&Metered { frame, at, bits });
        self.sent = sent;
        self.worst = Some(worst);
        None
    }
}
