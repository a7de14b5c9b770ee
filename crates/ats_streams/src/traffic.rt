//! What is declared of a stream's traffic.

ghost use Rattle.std.specs.Prelude.{◌≡◌, ◌↔◌, IsOk, IfOk};
ghost use Rattle.std.specs.Result.{result_err};
ghost use Rattle.ats_streams.specs.Fault.{rules_fault};
ghost use Rattle.ats_streams.specs.Rules.{KeepsRules};
ghost use Rattle.ats_streams.specs.Traffic.{IsRuled, declared_as, is_declared_size};

use crate::fault::StreamFault;
use crate::rules::{are_sizes, covers_longest, is_burst};
use ats_num::Rate;

/// What is declared of a stream.
#[derive(Clone, Copy, Debug, PartialEq, Eq)]
pub struct Declared {
    /// The committed rate.
    pub rate: Rate,
    /// The committed burst, in bits.
    pub burst_bits: u64,
    /// The least octets of a frame, counted with the frame check sequence.
    pub min_octets: u32,
    /// The greatest octets of a frame, counted with the frame check sequence.
    pub max_octets: u32,
}

impl Declared {
    /// This rate in bits per second, this burst in bits, and these least and greatest octets, as they stand in a file.
    ///
    /// # Errors
    ///
    /// The first of these, in this order: `BadRate` where the rate is not 1 to 100,000,000,000; `BadSizes` where the
    /// sizes are not `64 <= min_octets <= max_octets <= 2000`; `BurstBelowFrame` where the burst is below the wire bits
    /// of `max_octets`; `Limit` where the burst is over 1,000,000,000.
    pub fn new(
        rate_bps: u64,
        burst_bits: u64,
        min_octets: u64,
        max_octets: u64,
    ) -> Result<Self, StreamFault>
        ensures fault { result_err result ≡ rules_fault rate_bps burst_bits min_octets max_octets }
        ensures value { IfOk result (λ declared.
            declared ≡ declared_as rate_bps burst_bits min_octets max_octets) }
        ensures rules { IsOk result ↔ KeepsRules rate_bps burst_bits min_octets max_octets }
        ensures ruled { IfOk result IsRuled }
    {
        let Some(rate) = Rate::new(rate_bps) else {
            return Err(StreamFault::BadRate);
        };
        if !are_sizes(min_octets, max_octets) {
            return Err(StreamFault::BadSizes);
        }
        if !covers_longest(burst_bits, max_octets) {
            return Err(StreamFault::BurstBelowFrame);
        }
        if !is_burst(burst_bits) {
            return Err(StreamFault::Limit);
        }
        Ok(Declared {
            rate,
            burst_bits,
            min_octets: min_octets as u32,
            max_octets: max_octets as u32,
        })
    }

    /// Whether a frame of so many octets is within the declared sizes.
    pub fn allows(&self, octets: u32) -> bool
        ensures { result ≡ is_declared_size self.now octets }
    {
        octets >= self.min_octets && octets <= self.max_octets
    }
}
