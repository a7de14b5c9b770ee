//! How many frames each port may be offered.

ghost use Rattle.std.specs.Prelude.{◌≡◌, ◌+◌, ◌*◌, ◌<◌, ◌≤◌, length, IfOk};
ghost use Rattle.ats_network.specs.Network.{senders_of};
ghost use Rattle.ats_trace.specs.declared.run.TheConstants.{MAX_FRAMES};
ghost use Rattle.ats_trace.specs.Releases.{AreReleases};
ghost use Rattle.ats_engine.specs.Rooms.{AreCounts, Counts, AreBelow, rooms_at};

use ats_network::Network;
use ats_trace::Release;
use std::alloc::{AllocError, Global};

/// The number of classes of a port.
pub(crate) const CLASSES: usize = 8;

/// Counts a sender's frame at each of its ports, in its class there. The count of a class at a
/// port stands at eight times the port's number, and the class.
fn count(net: &Network, sender: u32, counts: &mut Vec<u32>)
    requires sender { sender < length (senders_of net.now) }
    requires below { AreBelow net.now counts.old.items }
    ensures { Counts net.now sender counts.old.items counts.new.items }
{
    let ports = net.sender_ports(sender);
    for (at, port) in ports.iter().enumerate() {
        let class = net.sender_class(sender, at as u32);
        let place = CLASSES * *port as usize + class as usize;
        counts[place] += 1;
    }
}

/// How many of these releases are of frames that pass a port in a class, for all ports and classes.
pub(crate) fn counts_of(
    alloc: Global,
    net: &Network,
    releases: &[Release],
) -> Result<Vec<u32>, AllocError>
    requires releases { AreReleases net.now releases.now }
    ensures { IfOk result (λ counts. AreCounts net.now releases.now counts.items) }
{
    let ports = net.topology().ports().len();
    let mut counts = vec![in alloc; 0; CLASSES * ports]?;
    for release in releases {
        count(net, release.sender, &mut counts);
    }
    Ok(counts)
}

/// The counts of one port, by class.
pub(crate) fn rooms_at(counts: &[u32], port: usize) -> [u32; 8]
    requires { 8 * port + 8 ≤ length counts.now }
    ensures { result ≡ rooms_at counts.now port }
{
    let first = CLASSES * port;
    [
        counts[first],
        counts[first + 1],
        counts[first + 2],
        counts[first + 3],
        counts[first + 4],
        counts[first + 5],
        counts[first + 6],
        counts[first + 7],
    ]
}
