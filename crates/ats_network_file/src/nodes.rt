//! The nodes and links that a network file declares.

ghost use Rattle.std.specs.Prelude.{◌≡◌, ◌++◌, map, IfOk};
ghost use Rattle.ats_num.specs.Failure.{Gives};
ghost use Rattle.ats_network_file.specs.Reading.{station_of, bridge_of, link_of, topology_in};

use crate::fault::NetFault;
use ats_network_toml::{BridgeEntry, Document, LinkEntry, StationEntry};
use ats_num::Failure;
use ats_topology::{Kind, Link, Node, Topology};
use std::alloc::{AllocError, Global};

/// The topology of the nodes and links of a document, or their first fault. The stations come before the bridges.
pub(crate) fn topology_in(alloc: Global, document: &Document) -> Result<Topology, Failure<NetFault>>
    ensures { Gives result (topology_in document.now) }
{
    let nodes = nodes_of(alloc, document.stations(), document.bridges())?;
    let links = links_of(alloc, document.links())?;
    Topology::new(alloc, nodes, links).map_err(Failure::within)
}

// The nodes: the stations, then the bridges.
fn nodes_of(
    alloc: Global,
    stations: &[StationEntry],
    bridges: &[BridgeEntry],
) -> Result<Vec<Node>, AllocError>
    ensures { IfOk result (λ nodes. nodes.items ≡ map station_of stations.now ++ map bridge_of bridges.now) }
{
    let nodes = stations
        .iter()
        .map(station_of)
        .chain(bridges.iter().map(bridge_of))
        .collect(alloc)?;
    Ok(nodes)
}

fn links_of(alloc: Global, links: &[LinkEntry]) -> Result<Vec<Link>, AllocError>
    ensures { IfOk result (λ made. made.items ≡ map link_of links.now) }
{
    let made = links.iter().map(link_of).collect(alloc)?;
    Ok(made)
}

fn station_of(station: &StationEntry) -> Node
    ensures { result ≡ station_of station.now }
{
    Node {
        name: station.name,
        kind: Kind::Station,
    }
}

fn bridge_of(bridge: &BridgeEntry) -> Node
    ensures { result ≡ bridge_of bridge.now }
{
    Node {
        name: bridge.name,
        kind: Kind::Bridge {
            processing_min_ns: bridge.processing_min_ns,
            processing_max_ns: bridge.processing_max_ns,
            residence_ns: bridge.residence_ns,
            clock_ppm: bridge.clock_ppm,
            clock_step_ps: bridge.clock_step_ps,
        },
    }
}

fn link_of(link: &LinkEntry) -> Link
    ensures { result ≡ link_of link.now }
{
    Link {
        a: link.a,
        b: link.b,
        mbps: link.mbps,
        propagation_ns: link.propagation_ns,
    }
}
