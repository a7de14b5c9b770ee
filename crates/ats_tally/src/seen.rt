//! Senders as ports see them.

ghost use Rattle.std.specs.Prelude.{◌≡◌, ◌≢◌, ◌<◌, length, slice_index_or, AllPairs};
ghost use Rattle.ats_network.specs.Network.{senders_of};
ghost use Rattle.ats_network.specs.Sender.{stream_sender};
ghost use Rattle.ats_network.specs.Senders.{sender_at};
ghost use Rattle.ats_network.specs.Class.{seen_at};
ghost use Rattle.ats_network.specs.Rates.{IsRated};
ghost use Rattle.ats_tally.specs.SenderAtPort.{port_sender, KeepsLimits};

use ats_network::{Network, Sender, committed_at};
use ats_num::wire::MIN_OCTETS;
use ats_streams::{Flow, Stream};
use ats_topology::Topology;

/// What a port sees of a sender: its class there, to which rate and burst its frames conform there, and their sizes.
#[derive(Clone, Copy)]
pub struct SeenSender {
    /// The class at the port: 1 to 7, of a flow 0.
    pub class: u8,
    /// The rate in bits per second; of a flow 0.
    pub rate_bps: u64,
    /// The burst in bits; of a flow 0.
    pub burst_bits: u64,
    /// The octets of the shortest frame.
    pub min_octets: u32,
    /// The octets of the longest frame.
    pub max_octets: u32,
}

impl SeenSender {
    /// A sender of a network as the port at this place of its ports sees it. Places are counted from 0.
    pub fn at(network: &Network, sender: u32, hop: u32) -> Self
        requires sender { sender < length (senders_of network.now) }
        requires hop { hop < length (sender_at network.now sender).ports }
        ensures seen { port_sender result ≡ seen_at network.now.topology
            (slice_index_or (sender_at network.now sender).ports hop 0) (sender_at network.now sender) }
        ensures limits { KeepsLimits result }
    {
        match network.sender(sender) {
            Sender::Stream(stream) => {
                SeenSender::of_stream(network.topology(), stream, hop as usize)
            }
            Sender::Flow(flow) => SeenSender::of_flow(flow),
        }
    }

    /// A stream as the port at this place of its ports sees it: of its class there, with the rate and the burst to
    /// which its frames conform there in true time.
    pub fn of_stream(topology: &Topology, stream: &Stream, place: usize) -> Self
        requires place { place < length stream.now.ports }
        requires apart { AllPairs (λ p q. p ≢ q) stream.now.ports }
        requires rated { IsRated topology.now (stream_sender stream.now) (slice_index_or stream.now.ports place 0) }
        ensures seen { port_sender result
            ≡ seen_at topology.now (slice_index_or stream.now.ports place 0) (stream_sender stream.now) }
        ensures limits { KeepsLimits result }
    {
        let declared = stream.declared();
        let committed = committed_at(topology, stream, stream.ports()[place]);
        SeenSender {
            class: stream.classes()[place],
            rate_bps: committed.rate.bps(),
            burst_bits: committed.burst_bits,
            min_octets: declared.min_octets,
            max_octets: declared.max_octets,
        }
    }

    // A flow, which is of class 0 at each port.
    fn of_flow(flow: &Flow) -> Self
        ensures value { port_sender result ≡ record {
          class = 0;
          rate = 0;
          burst_bits = 0;
          min_octets = MIN_OCTETS;
          max_octets = flow.now.max_octets;
        } }
        ensures limits { KeepsLimits result }
    {
        SeenSender {
            class: 0,
            rate_bps: 0,
            burst_bits: 0,
            min_octets: MIN_OCTETS,
            max_octets: flow.max_octets(),
        }
    }
}
