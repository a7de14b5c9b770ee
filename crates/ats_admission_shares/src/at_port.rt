//! What the senders at one port make with a stream that is not in the shares.

ghost use Rattle.std.specs.Prelude.{◌<◌, length, slice_index_or};
ghost use Rattle.ats_class_table.specs.Table.{AreValuesAt};
ghost use Rattle.ats_network.specs.Network.{senders_of};
ghost use Rattle.ats_certificate.specs.PortSums.{senders_at};
ghost use Rattle.ats_tally.specs.Shares.{AreSharesOf};
ghost use Rattle.ats_tally.specs.Tallies.{AreClassTallies};
ghost use Rattle.ats_admission_shares.specs.PortShares.{stream_at, without_at};

use ats_class_table::{CLASSES, PortClassTable};
use ats_network::Network;
use ats_tally::{SeenSender, Share, Tally, tallies_of};

/// What the senders make of each class from 1 to 7 at the port at a hop of a stream, at the class, where that
/// stream is not counted in the shares.
pub(crate) fn tallies_entered(
    shares: &PortClassTable<Share>,
    network: &Network,
    stream: u32,
    hop: u32,
) -> [Tally; CLASSES]
    requires stream { stream < length network.now.streams }
    requires hop { hop < length (stream_at network.now stream).ports }
    requires shares { AreSharesOf (without_at network.now stream) shares.now }
    ensures { AreClassTallies
        (senders_at network.now.topology (slice_index_or (stream_at network.now stream).ports hop 0)
        (senders_of network.now)) result }
{
    let sender = SeenSender::at(network, stream, hop);
    let class = sender.class as usize;
    let mut own = eight_at(shares, network.sender_ports(stream)[hop as usize]);
    own[class] = own[class].with_sender(&sender);
    tallies_of(&own)
}

// The shares of the eight classes at a port.
fn eight_at(shares: &PortClassTable<Share>, port: u32) -> [Share; CLASSES]
    requires { port < shares.now.ports }
    ensures { AreValuesAt shares.now port result }
{
    let mut own = [Share::new(); CLASSES];
    own.copy_from_slice(shares.values_at(port));
    own
}
