//! The legs of a sender: the class at each hop.

ghost use Rattle.std.specs.Prelude.{◌≡◌, ◌<◌, ◌≤◌, length, slice_index_or};
ghost use Rattle.ats_streams.specs.Branches.{first_from, leg_at};
ghost use Rattle.ats_network.specs.Class.{class_at};
ghost use Rattle.ats_network.specs.Network.{senders_of};
ghost use Rattle.ats_network.specs.Senders.{sender_at};
ghost use Rattle.ats_trace.specs.Journey.{legs_at};

use ats_network::{Network, Sender};

/// A sender's class at the port of a hop of one of its legs.
pub(crate) fn class_of(network: &Network, sender: u32, leg: u32, hop: u32) -> u8
    requires sender { sender < length (senders_of network.now) }
    requires leg { leg ≤ length (sender_at network.now sender).branches }
    requires hop { hop < length (leg_at (legs_at network.now sender) leg) }
    ensures { result ≡ class_at (sender_at network.now sender)
        (slice_index_or (leg_at (legs_at network.now sender) leg) hop 0) }
{
    let _topology = network.topology(); // for what a network keeps
    network.sender_class(sender, first_place(network, sender, leg) + hop)
}

// The place of a leg's first port among those of its sender.
fn first_place(network: &Network, sender: u32, leg: u32) -> u32
    requires sender { sender < length (senders_of network.now) }
    requires leg { leg ≤ length (sender_at network.now sender).branches }
    ensures { result ≡ first_from 0 (sender_at network.now sender).branches leg }
{
    if leg == 0 {
        return 0;
    }
    match network.sender(sender) {
        Sender::Stream(stream) => stream.branch(leg).first,
        Sender::Flow(_) => 0,
    }
}
