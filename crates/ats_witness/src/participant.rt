//! A sender that takes part in the burst at a port.

ghost use Rattle.std.specs.Prelude.{◌≡◌, ◌+◌, ◌-◌, ◌*◌, ◌/◌, ◌<◌, ◌≤◌, ◌==◌, false, length, min};
ghost use Rattle.std.specs.Prelude.{nat_le, position, sum_by, MatchOption, IfSome, if◌then◌else◌};
ghost use Rattle.ats_num.specs.Wire.{IsFrameSize, bits_of};
ghost use Rattle.ats_topology.specs.Port.{port_at};
ghost use Rattle.ats_topology.specs.Walks.{ArePorts};
ghost use Rattle.ats_streams.specs.declared.path.TheConstants.{MAX_PORTS};
ghost use Rattle.ats_network.specs.Network.{senders_of};
ghost use Rattle.ats_network.specs.Rates.{ports_to};
ghost use Rattle.ats_network.specs.SenderView.{sender_of};
ghost use Rattle.ats_network.specs.Senders.{sender_at};
ghost use Rattle.ats_certificate.specs.PortSums.{uses};
ghost use Rattle.ats_witness.specs.Burst.{time_over};
ghost use Rattle.ats_witness.specs.Made.{IsParticipant};

use ats_network::{Network, Sender};
use ats_num::wire_bits;

/// The most frames of a sender in a burst.
pub const MAX_BURST_FRAMES: u64 = 40;

/// A sender that has a port.
#[derive(Clone, Copy)]
pub(crate) struct Participant {
    /// Its class there.
    pub(crate) class: u8,
    /// The burst that it declares, in bits; of a flow 0.
    pub(crate) burst_bits: u64,
    /// The octets of its longest frame.
    pub(crate) max_octets: u32,
    /// Its travel to the port, in picoseconds.
    pub(crate) travel: u64,
}

impl Participant {
    /// How many frames it has in the burst for a class.
    pub(crate) fn frames(&self, class: u8) -> u64
        requires { IsFrameSize self.now.max_octets }
        ensures { result ≡ (if nat_le class self.now.class
            then min 40 (self.now.burst_bits / bits_of self.now.max_octets) else 1) }
    {
        if class <= self.class {
            (self.burst_bits / wire_bits(self.max_octets)).min(MAX_BURST_FRAMES)
        } else {
            1
        }
    }

    /// When they are released, where no travel to the port is longer than this one.
    pub(crate) fn time(&self, class: u8, greatest: u64) -> u64
        requires travel { self.now.travel ≤ greatest }
        requires most { greatest ≤ 231424000000 }
        ensures { result ≡ (if nat_le class self.now.class
            then 1 + greatest - self.now.travel else 1 + greatest - self.now.travel - 1) }
    {
        let together = 1 + greatest - self.travel;
        if class <= self.class {
            together
        } else {
            together - 1
        }
    }
}

/// A sender as it takes part in the burst at a port; `None` exactly where it does not have the port.
pub(crate) fn taking_part(network: &Network, sender: u32, port: u32) -> Option<Participant>
    requires sender { sender < length (senders_of network.now) }
    ensures { MatchOption result (uses port (sender_at network.now sender) ≡ false)
        (IsParticipant network.now port (sender_at network.now sender)) }
{
    let place = place_of(network.sender_ports(sender), port)?;
    let (burst_bits, max_octets) = burst_and_longest(&network.sender(sender));
    Some(Participant {
        class: network.sender_class(sender, place as u32),
        burst_bits,
        max_octets,
        travel: travel_to(network, sender, port, max_octets),
    })
}

// The burst that a sender declares, in bits, and the octets of its longest frame.
fn burst_and_longest(sender: &Sender<'_>) -> (u64, u32)
    ensures burst { result.0 ≡ (sender_of sender.now).burst_bits }
    ensures longest { result.1 ≡ (sender_of sender.now).max_octets }
    ensures size { IsFrameSize result.1 }
{
    match sender {
        Sender::Stream(stream) => {
            let declared = stream.declared();
            (declared.burst_bits, declared.max_octets)
        }
        Sender::Flow(flow) => (0, flow.max_octets()),
    }
}

// The place of a port among others.
fn place_of(ports: &[u32], port: u32) -> Option<usize>
    ensures place { result ≡ position (λ p. p == port) ports.now }
    ensures within { IfSome result (λ place. place < length ports.now) }
{
    ports.iter().position(|p| *p == port)
}

// How long a frame of so many octets takes over the ports by which those of a sender come to a port, where nothing
// delays it.
fn travel_to(network: &Network, sender: u32, port: u32, octets: u32) -> u64
    requires sender { sender < length (senders_of network.now) }
    requires octets { IsFrameSize octets }
    ensures value { result ≡ sum_by (time_over network.now octets) (ports_to (sender_at network.now sender) port) }
    ensures most { result ≤ 231424000000 }
{
    for leg in 0..network.sender_legs(sender) {
        let route = network.sender_route(sender, leg);
        if let Some(hop) = place_of(route.as_slice(), port) {
            return time_along(network, octets, &route.as_slice()[..hop]);
        }
    }
    0
}

// How long a frame of so many octets takes over these ports where nothing delays it.
fn time_along(network: &Network, octets: u32, ports: &[u32]) -> u64
    requires octets { IsFrameSize octets }
    requires ports { ArePorts network.now.topology.ports ports.now }
    requires few { length ports.now ≤ MAX_PORTS }
    ensures value { result ≡ sum_by (time_over network.now octets) ports.now }
    ensures most { result ≤ 231424000000 }
{
    let bits = wire_bits(octets);
    let mut time = 0;
    for port in ports {
        time += time_over(network, bits, *port);
    }
    time
}

// How long a frame of so many bits takes over a port where nothing delays it.
fn time_over(network: &Network, bits: u64, port: u32) -> u64
    requires bits { bits ≤ 16160 }
    requires port { port < length network.now.topology.ports }
    ensures value { result ≡ (port_at network.now.topology.ports port).ps_per_bit * bits
        + (port_at network.now.topology.ports port).latency.0 }
    ensures most { result ≤ 3616000000 }
{
    let link = &network.topology().ports()[port as usize];
    u64::from(link.ps_per_bit) * bits + link.latency.0
}
