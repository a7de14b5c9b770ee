//! The shares of all ports of a network.

ghost use Rattle.std.specs.Prelude.{◌≡◌, ◌<◌, length, IfOk};
ghost use Rattle.ats_network.specs.Network.{senders_of};
ghost use Rattle.ats_network.specs.Senders.{sender_at};
ghost use Rattle.ats_tally.specs.Shares.{AreSharesOf, Enters, HaveRoom};

use crate::seen::SeenSender;
use crate::share::Share;
use ats_class_table::PortClassTable;
use ats_network::Network;
use std::alloc::{AllocError, Global};

/// What the senders of each class from 0 to 7 make at each port of a network. It takes time and memory linear in the
/// number of ports and the sum of the paths' lengths. `AllocError` where memory runs out.
pub fn shares_of(alloc: Global, network: &Network) -> Result<PortClassTable<Share>, AllocError>
    ensures { IfOk result (AreSharesOf network.now) }
{
    let mut shares = PortClassTable::new(alloc, network.topology().ports().len(), Share::new())?;
    for sender in 0..network.senders() {
        enter_along(&mut shares, network, sender);
    }
    Ok(shares)
}

/// Counts the sender with this number at each of its ports, in its class there.
pub fn enter_along(shares: &mut PortClassTable<Share>, network: &Network, sender: u32)
    requires sender { sender < length (senders_of network.now) }
    requires count { shares.old.ports ≡ length network.now.topology.ports }
    requires room { HaveRoom shares.old }
    ensures { Enters network.now.topology (sender_at network.now sender) shares.old shares.new }
{
    for (hop, port) in network.sender_ports(sender).iter().enumerate() {
        let seen = SeenSender::at(network, sender, hop as u32);
        let share = shares.get(*port, seen.class);
        shares.set(*port, seen.class, share.with_sender(&seen));
    }
}
