//! Networks with the bursts of spaced streams.

ghost use Rattle.std.specs.Prelude.{◌≡◌};
ghost use Rattle.ats_lrq.specs.Narrow.{narrowed};

use ats_network::Network;
use ats_num::wire_bits;

/// Sets each stream's committed burst to the wire bits of its longest frame, which is what a length-rate-quotient
/// regulator lets through at once. All else stays, and it takes no memory.
pub fn narrow(network: &mut Network)
    ensures { network.new ≡ narrowed network.old }
{
    let streams = network.streams().len() as u32;
    for stream in 0..streams {
        let max_octets = network.streams()[stream as usize].max_octets();
        network.set_burst(stream, wire_bits(max_octets));
    }
}
