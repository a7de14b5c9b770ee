//! Networks from the bytes of a file.

ghost use Rattle.std.specs.Prelude.{◌≡◌, IfOk, Ok};
ghost use Rattle.ats_network.specs.Network.{HasOneListener, IsMostPorts};
ghost use Rattle.ats_num.specs.Failure.{Gives};
ghost use Rattle.ats_network_table.specs.declared.format.Format.TheVariants.{Three};
ghost use Rattle.ats_network_toml.specs.Reading.{format_in};
ghost use Rattle.ats_network_file.specs.Reading.{IsBeforeFormat3, most_ports_of, network_in, network_of};
ghost use Rattle.ats_network_file.specs.Stations.{JoinStations};

use crate::fault::NetFault;
use crate::kept_routes::KeptRoutes;
use crate::link_local::{flows_at_ports, streams_at_ports};
use crate::nodes::topology_in;
use crate::senders::{SenderTable, add_both};
use ats_network::Network;
use ats_network_table::Format;
use ats_network_toml::{Document, read_document};
use ats_num::Failure;
use ats_streams::path::{MAX_PORTS, MAX_SHORT_PORTS};
use std::alloc::Global;

/// The network that a text declares, or its first fault.
///
/// # Errors
///
/// The first fault of this walk. `Form`: the faults of form, as `ats_network_toml::read_document`
/// names them: the text is no TOML, a key is missing, unknown or of the wrong kind, an array is
/// over its limit. Then `Topology`: the first fault of the nodes, which are the stations and behind
/// them the bridges, and the links. Then the streams in order, those for each port, the flows in order
/// and those for each port, of each `BadPath`, `Sender`, `SenderTwice` and, for a stream, `IdentityTwice`
/// and `Form`, that the streams so far have more ports together than a network may have, in this order.
///
/// The network of a text of format 1 or 2 has one listener for each stream, all its routes lead from
/// stations to stations, and they have at most 16 ports; of format 3 they have at most 64.
pub fn read_network(alloc: Global, bytes: &[u8]) -> Result<Network, Failure<NetFault>>
    ensures value { Gives result (network_of bytes.now) }
    ensures one_listener { IsBeforeFormat3 bytes.now → IfOk result HasOneListener }
    ensures stations { IsBeforeFormat3 bytes.now → IfOk result JoinStations }
    ensures short { IsBeforeFormat3 bytes.now → IfOk result (λ network. network.most_ports ≡ 16) }
    ensures long { format_in bytes.now ≡ Ok Three → IfOk result (λ network. network.most_ports ≡ 64) }
{
    let document = read_document(alloc, bytes).map_err(Failure::within::<NetFault>)?;
    network_in(alloc, &document)
}

// The network of a document.
fn network_in(alloc: Global, document: &Document) -> Result<Network, Failure<NetFault>>
    ensures { Gives result (network_in document.now) }
{
    let topology = topology_in(alloc, document)?;
    let streams = streams_at_ports(alloc, &topology, document.link_locals())?;
    let flows = flows_at_ports(alloc, &topology, document.link_local_flows())?;
    let mut kept = KeptRoutes::new(alloc, &topology)?;
    let format = document.format();
    let mut network = Network::new(alloc, topology, most_ports_of(format));
    add_both(
        alloc,
        format,
        &mut network,
        &mut kept,
        SenderTable::Stream,
        document.streams(),
        streams.as_slice(),
    )?;
    add_both(
        alloc,
        format,
        &mut network,
        &mut kept,
        SenderTable::Flow,
        document.flows(),
        flows.as_slice(),
    )?;
    Ok(network)
}

// The most ports of a route, by the format.
fn most_ports_of(format: Format) -> u32
    ensures value { result ≡ most_ports_of format }
    ensures is { IsMostPorts result }
{
    match format {
        Format::One => MAX_SHORT_PORTS as u32,
        Format::Two => MAX_SHORT_PORTS as u32,
        Format::Three => MAX_PORTS as u32,
    }
}
