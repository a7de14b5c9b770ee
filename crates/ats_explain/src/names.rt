//! The senders of the longest frames of lower classes.

ghost use Rattle.std.specs.Prelude.{◌≡◌, ◌+◌, ◌<◌, length, IfOk};
ghost use Rattle.ats_network.specs.Network.{senders_of};
ghost use Rattle.ats_network.specs.Senders.{sender_at};
ghost use Rattle.ats_tally.specs.SenderAtPort.{port_sender, KeepsLimits};
ghost use Rattle.ats_explain.specs.Table.{NamesAt, NamesFrom};

use ats_class_table::PortClassTable;
use ats_num::{Name, wire_bits};
use ats_tally::{SeenSender, Tallies};
use std::alloc::{AllocError, Global};

// For each port and class the name of the first sender whose longest frame is the longest of a lower class there. It
// looks at each path once, the last sender first, so that of senders with as long a frame the first one stays.
pub(crate) fn names_of(
    alloc: Global,
    tallies: &Tallies,
) -> Result<PortClassTable<Option<Name>>, AllocError>
    ensures { IfOk result (NamesFrom tallies.now 0) }
{
    let network = tallies.network();
    let mut names = PortClassTable::new(alloc, network.topology().ports().len(), None)?;
    for sender in (0..network.senders()).rev() {
        name_sender(&mut names, tallies, sender);
    }
    Ok(names)
}

// Names a sender at each of its ports.
fn name_sender(names: &mut PortClassTable<Option<Name>>, tallies: &Tallies, sender: u32)
    requires sender { sender < length (senders_of tallies.now) }
    requires before { NamesFrom tallies.now (sender + 1) names.old }
    ensures { NamesFrom tallies.now sender names.new }
{
    let network = tallies.network();
    let name = network.sender_name(sender);
    for (hop, port) in network.sender_ports(sender).iter().enumerate() {
        let seen = SeenSender::at(network, sender, hop as u32);
        name_at(names, tallies, *port, &seen, name);
    }
}

// Names a sender that a port sees, in each class in which its longest frame is the longest lower one.
fn name_at(
    names: &mut PortClassTable<Option<Name>>,
    tallies: &Tallies,
    port: u32,
    sender: &SeenSender,
    name: Name,
)
    requires limits { KeepsLimits sender.now }
    requires port { port < length tallies.now.topology.ports }
    requires count { names.old.ports ≡ length tallies.now.topology.ports }
    ensures { NamesAt tallies.now port (port_sender sender.now) name 8 names.old names.new }
{
    let bits = wire_bits(sender.max_octets);
    for class in 1..8 {
        if sender.class < class && tallies.tally(port, class).lower == bits {
            names.set(port, class, Some(name));
        }
    }
}
