//! What a frame takes up on the wire.

ghost use Rattle.std.specs.Prelude.{◌≡◌};
ghost use Rattle.ats_num.specs.Wire.{IsFrameSize, bits_of};

/// The fewest octets of a frame, counted with its frame check sequence.
pub const MIN_OCTETS: u32 = 64;

/// The most octets of a frame, counted with its frame check sequence.
pub const MAX_OCTETS: u32 = 2000;

/// The wire bits of the longest frame, of 2000 octets.
pub const MAX_WIRE_BITS: u64 = 16160;

/// The bits that a frame of so many octets takes up on the wire: the frame itself, 8 octets of preamble and start
/// delimiter, and the gap of 12 octets.
pub fn wire_bits(octets: u32) -> u64
    requires { IsFrameSize octets }
    ensures bits { result ≡ bits_of octets }
{
    8 * (u64::from(octets) + 20)
}
