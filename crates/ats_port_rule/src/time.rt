//! How long a frame is on the wire.

ghost use Rattle.std.specs.Prelude.{◌≡◌, ◌*◌, ◌≤◌};
ghost use Rattle.ats_num.specs.declared.wire.TheConstants.{MAX_WIRE_BITS};
ghost use Rattle.ats_num.specs.Wire.{IsFrameSize, bits_of};

use ats_num::wire_bits;

/// The time that a frame of so many octets takes to be sent, in picoseconds: its wire bits, each of which takes so many
/// picoseconds on the link. The octets are 64 to 2000, counted with the frame check sequence.
pub fn transmission_time(ps_per_bit: u32, octets: u32) -> u64
    requires { IsFrameSize octets }
    ensures value { result ≡ ps_per_bit * bits_of octets }
    ensures bounded { result ≤ ps_per_bit * MAX_WIRE_BITS }
{
    u64::from(ps_per_bit) * wire_bits(octets)
}
