//! Tests of the rules on rate, burst and sizes, for numbers as they stand in a file.

ghost use Rattle.std.specs.Prelude.{◌↔◌, IsTrue};
ghost use Rattle.ats_num.specs.Wire.{IsFrameSize};
ghost use Rattle.ats_streams.specs.Rules.{AreSizes, CoversLongest, IsBurst, KeepsRules};

use ats_num::rate::MAX_BURST_BITS;
use ats_num::wire::{MAX_OCTETS, MIN_OCTETS};
use ats_num::{Rate, wire_bits};

/// Whether so many octets, counted with the frame check sequence, make a frame: 64 to 2000.
pub fn is_frame_size(octets: u64) -> bool
    ensures { IsTrue result ↔ IsFrameSize octets }
{
    octets >= u64::from(MIN_OCTETS) && octets <= u64::from(MAX_OCTETS)
}

/// Whether a stream's frames may have these least and greatest octets: `64 <= min_octets <= max_octets <= 2000`.
pub fn are_sizes(min_octets: u64, max_octets: u64) -> bool
    ensures { IsTrue result ↔ AreSizes min_octets max_octets }
{
    is_frame_size(min_octets) && is_frame_size(max_octets) && min_octets <= max_octets
}

/// Whether a burst, in bits, covers the wire bits of the longest frame, so that a full bucket lets each frame of the
/// stream pass (IEEE Std 802.1Qcr, CommittedBurstSize).
pub fn covers_longest(burst_bits: u64, max_octets: u64) -> bool
    requires { IsFrameSize max_octets }
    ensures { IsTrue result ↔ CoversLongest burst_bits max_octets }
{
    wire_bits(max_octets as u32) <= burst_bits
}

/// Whether so many bits are a committed burst: at most 1,000,000,000 (IEEE Std 802.1Qcr, CommittedBurstSize).
pub fn is_burst(burst_bits: u64) -> bool
    ensures { IsTrue result ↔ IsBurst burst_bits }
{
    burst_bits <= MAX_BURST_BITS
}

/// Whether the numbers keep each rule of a declared stream on rate (bits per second), burst (bits) and sizes (octets).
pub fn keeps_rules(rate_bps: u64, burst_bits: u64, min_octets: u64, max_octets: u64) -> bool
    ensures { IsTrue result ↔ KeepsRules rate_bps burst_bits min_octets max_octets }
{
    if Rate::new(rate_bps).is_none() || !is_burst(burst_bits) {
        return false;
    }
    if !are_sizes(min_octets, max_octets) {
        return false;
    }
    covers_longest(burst_bits, max_octets)
}
