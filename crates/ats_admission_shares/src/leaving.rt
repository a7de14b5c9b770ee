//! A stream that is taken out of the shares of the ports that it used.

ghost use Rattle.std.specs.Prelude.{◌≡◌, ◌<◌, ◌≤◌, length};
ghost use Rattle.ats_network.specs.Network.{senders_of};
ghost use Rattle.ats_certificate.specs.PortSums.{senders_at};
ghost use Rattle.ats_admission_users.specs.Users.{ListsPaths};
ghost use Rattle.ats_tally.specs.SenderAtPort.{port_sender, KeepsLimits};
ghost use Rattle.ats_tally.specs.Shares.{AreSharesOf, share_of, share_with};
ghost use Rattle.ats_admission_shares.specs.PortShares.{AreSharesBefore, stream_paths};

use crate::frames::{Frames, frames_left};
use ats_admission_users::PortUsers;
use ats_class_table::PortClassTable;
use ats_network::Network;
use ats_streams::Stream;
use ats_tally::{SeenSender, Share};

/// Takes a stream that has left a network out of the share of its class at each of its ports.
pub(crate) fn leave_along(
    shares: &mut PortClassTable<Share>,
    network: &Network,
    stream: &Stream,
    streams: &PortUsers,
)
    requires users { ListsPaths (length network.now.topology.ports) (stream_paths network.now) streams.now }
    requires before { AreSharesBefore network.now stream.now shares.old }
    ensures { AreSharesOf network.now shares.new }
{
    for (hop, port) in stream.ports().iter().enumerate() {
        let seen = SeenSender::of_stream(network.topology(), stream, hop);
        let share = shares.get(*port, seen.class);
        let left = share_left(share, network, streams, *port, &seen);
        shares.set(*port, seen.class, left);
    }
}

// The share of a class at a port, from that with a sender more.
fn share_left(
    share: Share,
    network: &Network,
    streams: &PortUsers,
    port: u32,
    sender: &SeenSender,
) -> Share
    requires port { port < length network.now.topology.ports }
    requires users { ListsPaths (length network.now.topology.ports) (stream_paths network.now) streams.now }
    requires limits { KeepsLimits sender.now }
    requires class { 1 ≤ sender.now.class }
    requires share { share ≡ share_with (port_sender sender.now)
        (share_of sender.now.class (senders_at network.now.topology port (senders_of network.now))) }
    ensures { result
        ≡ share_of sender.now.class (senders_at network.now.topology port (senders_of network.now)) }
{
    let before = Frames {
        longest: share.longest,
        shortest: share.shortest,
    };
    let frames = frames_left(network, streams, port, sender, before);
    Share {
        rate: share.rate - sender.rate_bps,
        bursts: share.bursts - sender.burst_bits,
        longest: frames.longest,
        shortest: frames.shortest,
    }
}
