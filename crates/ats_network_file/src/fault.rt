//! Why a text declares no network.

ghost use Rattle.std.specs.Prelude.{◌≡◌, Some};
ghost use Rattle.ats_network_file.specs.FaultText.{fault_text};

use crate::senders::SenderTable;
use ats_network_table::DocumentFault;
use ats_num::Fault;
use ats_streams::StreamFault;
use ats_topology::TopologyFault;
use std::fmt;

/// The first fault of a text that declares no network. The entries of an array are counted from 1.
/// It is displayed as the words for a fault of form, those for a fault of the topology, `bad-path
/// TABLE ENTRY`, `TABLE ENTRY FAULT` with the words for a fault of a stream, `sender-twice TABLE
/// ENTRY` or `identity-twice ENTRY`.
#[derive(Clone, Copy, Debug, PartialEq, Eq)]
pub enum NetFault {
    /// The text does not have the form of a network file.
    Form(DocumentFault),
    /// The nodes and links have a fault; stations are counted before bridges.
    Topology(TopologyFault),
    /// A route of a stream or flow has an unknown node, no link between neighbours, no walk between
    /// its ends, or is no valid path; or, before format 3, it does not join stations; or the routes
    /// of a stream are those of no tree.
    BadPath {
        /// Whether it is declared as a stream or a flow, or for each port.
        table: SenderTable,
        /// The number of the entry.
        entry: u32,
    },
    /// A stream or flow breaks a rule. The last one of a stream is that no rate and no burst of it is, by the clocks
    /// on its way, over the limits of a scheduler.
    Sender {
        /// Whether it is declared as a stream or a flow, or for each port.
        table: SenderTable,
        /// The number of the entry.
        entry: u32,
        /// The first rule that it breaks.
        fault: StreamFault,
    },
    /// An earlier stream or flow has the name.
    SenderTwice {
        /// Whether it is declared as a stream or a flow, or for each port.
        table: SenderTable,
        /// The number of the entry.
        entry: u32,
    },
    /// An earlier stream has the address and VLAN identifier.
    IdentityTwice {
        /// The number of the stream.
        entry: u32,
    },
}

impl Fault for NetFault {}

impl From<DocumentFault> for NetFault {
    ghost use Rattle.ats_network_file.specs.declared.fault.NetFault.TheVariants.{Form};

    ghost from_gives = { λ fault e. e ≡ Form fault };

    fn from(fault: DocumentFault) -> NetFault {
        NetFault::Form(fault)
    }
}

impl From<TopologyFault> for NetFault {
    ghost use Rattle.ats_network_file.specs.declared.fault.NetFault.TheVariants.{Topology};

    ghost from_gives = { λ fault e. e ≡ Topology fault };

    fn from(fault: TopologyFault) -> NetFault {
        NetFault::Topology(fault)
    }
}

impl fmt::Display for NetFault {
    ghost output = { λ fault. Some (fault_text fault) };

    fn fmt<W: fmt::Write>(&self, f: &mut fmt::Formatter<W>) -> fmt::Result {
        match self {
            NetFault::Form(fault) => write!(f, "{fault}"),
            NetFault::Topology(fault) => write!(f, "{fault}"),
            NetFault::BadPath { table, entry } => write!(
                f,
                "bad-path {} {entry}",
                table.table().text()
            ),
            NetFault::Sender {
                table,
                entry,
                fault,
            } => write!(f, "{} {entry} {fault}", table.table().text()),
            NetFault::SenderTwice { table, entry } => {
                write!(f, "sender-twice {} {entry}", table.table().text())
            }
            NetFault::IdentityTwice { entry } => write!(f, "identity-twice {entry}"),
        }
    }
}
