//! The entries of a file that declare senders: its streams and its flows.

ghost use Rattle.std.specs.Prelude.{◌≡◌, ◌<◌, ◌^◌, ◌++◌, length, OnOk, Option, Result};
ghost use Rattle.ats_num.specs.Failure.{IsDue, Fails, GivesSeen, unless};
ghost use Rattle.ats_network_file.specs.KeptRoutes.{IsKeptFor};
ghost use Rattle.ats_network.specs.Network.{DeclaredNetwork};
ghost use Rattle.ats_network_file.specs.Senders.{table_of, refusal_of, all_added, alone, placed};
ghost use Rattle.ats_network_file.specs.declared.senders.Place.{Place};
ghost use Rattle.ats_network_file.specs.declared.fault.NetFault.{NetFault};
ghost use Rattle.ats_network_table.specs.declared.format.Format.{Format};
ghost use Rattle.ats_network_file.specs.declared.fault.NetFault.TheVariants.{Sender};
ghost use Rattle.ats_network.specs.declared.fault.PushFault.{PushFault};

use crate::fault::NetFault;
use crate::kept_routes::KeptRoutes;
use ats_network::{Network, PushFault};
use ats_network_table::{DocumentFault, Format, Table};
use ats_num::Failure;
use ats_streams::StreamFault;
use std::alloc::Global;

/// A table of a file that declares senders.
#[derive(Clone, Copy, Debug, PartialEq, Eq)]
pub enum SenderTable {
    /// That of a stream.
    Stream,
    /// That of a stream for each port.
    LinkLocal,
    /// That of a best-effort flow.
    Flow,
    /// That of a best-effort flow for each port.
    LinkLocalFlow,
}

impl SenderTable {
    /// The same among all tables of a file.
    pub fn table(self) -> Table
        ensures { result ≡ table_of self }
    {
        match self {
            SenderTable::Stream => Table::Stream,
            SenderTable::LinkLocal => Table::LinkLocal,
            SenderTable::Flow => Table::Flow,
            SenderTable::LinkLocalFlow => Table::LinkLocalFlow,
        }
    }
}

/// Where an entry of a file stands: in this table, with this number, counted from 1. It is what faults name.
#[derive(Clone, Copy, Debug, PartialEq, Eq)]
pub struct Place {
    /// The table.
    pub table: SenderTable,
    /// The number of the entry.
    pub number: u32,
}

// Why a network does not take the sender of an entry, as a fault of the file.
fn refusal_of(place: Place, fault: PushFault) -> NetFault
    ensures { result ≡ refusal_of place fault }
{
    match fault {
        PushFault::NameTaken => NetFault::SenderTwice {
            table: place.table,
            entry: place.number,
        },
        PushFault::IdentityTaken => NetFault::IdentityTwice {
            entry: place.number,
        },
        PushFault::Limit => NetFault::Form(DocumentFault::Limit {
            table: place.table.table(),
        }),
    }
}

/// Why a network did not take the sender of an entry, as a failure of the file.
pub(crate) fn refused(place: Place, failure: Failure<PushFault>) -> Failure<NetFault>
    ensures { (due : Option PushFault) (next : DeclaredNetwork) → IsDue failure due
        → Fails result (unless (refusal_of place) due next) }
{
    match failure {
        Failure::Fault(fault) => Failure::Fault(refusal_of(place, fault)),
        Failure::NoMemory => Failure::NoMemory,
    }
}

/// The fault of an entry whose sender breaks a rule.
pub(crate) fn broken(place: Place, fault: StreamFault) -> NetFault
    ensures { result ≡ Sender place.table place.number fault }
{
    NetFault::Sender {
        table: place.table,
        entry: place.number,
        fault,
    }
}

/// An entry that declares a sender.
pub(crate) trait SenderEntry: Drop {
    // The network with the sender of an entry of a file of this format, which stands at this place, or the first
    // fault of that entry.
    ghost added: { Format → DeclaredNetwork → Place → Self → Result DeclaredNetwork NetFault };

    /// Adds the sender of an entry of a file of this format, which stands at this place, or gives the
    /// entry's first fault. What is kept is of the network's topology.
    fn add(
        &self,
        alloc: Global,
        format: Format,
        network: &mut Network,
        kept: &mut KeptRoutes,
        place: Place,
    ) -> Result<(), Failure<NetFault>>
        requires kept { IsKeptFor network.old.topology kept.old }
        ensures value { GivesSeen (λ _. network.new) result (added format network.old place self.now) }
        ensures kept { OnOk result (IsKeptFor network.new.topology kept.new) };
}

/// Adds the senders of the entries of a table, of a file of this format, and then those at ports, one after another,
/// as far as the first fault.
pub(crate) fn add_both<E: SenderEntry>(
    alloc: Global,
    format: Format,
    network: &mut Network,
    kept: &mut KeptRoutes,
    table: SenderTable,
    entries: &[E],
    at_ports: &[(Place, E)],
) -> Result<(), Failure<NetFault>>
    requires few { length entries.now < 2 ^ 31 }
    requires kept { IsKeptFor network.old.topology kept.old }
    ensures value { GivesSeen (λ _. network.new) result
        (all_added (E.added format) network.old (placed alone table 1 entries.now ++ at_ports.now)) }
    ensures kept { OnOk result (IsKeptFor network.new.topology kept.new) }
{
    add_all(alloc, format, network, kept, table, entries)?;
    add_placed(alloc, format, network, kept, at_ports)
}

// Adds the senders of the entries of a table.
fn add_all<E: SenderEntry>(
    alloc: Global,
    format: Format,
    network: &mut Network,
    kept: &mut KeptRoutes,
    table: SenderTable,
    entries: &[E],
) -> Result<(), Failure<NetFault>>
    requires few { length entries.now < 2 ^ 31 }
    requires kept { IsKeptFor network.old.topology kept.old }
    ensures value { GivesSeen (λ _. network.new) result
        (all_added (E.added format) network.old (placed alone table 1 entries.now)) }
    ensures kept { OnOk result (IsKeptFor network.new.topology kept.new) }
{
    for (before, entry) in entries.iter().enumerate() {
        let place = Place {
            table,
            number: before as u32 + 1,
        };
        entry.add(alloc, format, network, kept, place)?;
    }
    Ok(())
}

// Adds the senders of these entries, each with the place that its faults name.
fn add_placed<E: SenderEntry>(
    alloc: Global,
    format: Format,
    network: &mut Network,
    kept: &mut KeptRoutes,
    entries: &[(Place, E)],
) -> Result<(), Failure<NetFault>>
    requires kept { IsKeptFor network.old.topology kept.old }
    ensures value { GivesSeen (λ _. network.new) result (all_added (E.added format) network.old entries.now) }
    ensures kept { OnOk result (IsKeptFor network.new.topology kept.new) }
{
    for (place, entry) in entries {
        entry.add(alloc, format, network, kept, *place)?;
    }
    Ok(())
}
