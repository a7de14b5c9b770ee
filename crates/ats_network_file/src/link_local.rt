//! The streams and flows that the tables for each port stand for.

ghost use Rattle.std.specs.Prelude.{◌≡◌, ◌<◌, ◌≤◌, ◌^◌, [], ◌∷◌, ◌++◌, length, map, OnOk, IfOk};
ghost use Rattle.ats_topology.specs.Port.{IsBetween};
ghost use Rattle.ats_topology.specs.Topology.{node_at};
ghost use Rattle.ats_network_toml.specs.Document.{IsShortName};
ghost use Rattle.ats_network_file.specs.LinkLocal.{name_at, stream_at, streams_at, flow_at, flows_at};
ghost use Rattle.ats_network_file.specs.Senders.{at_place, placed};
ghost use Rattle.ats_network_file.specs.declared.senders.SenderTable.TheVariants as tables;

use crate::senders::{Place, SenderTable};
use ats_network_toml::{FlowEntry, LinkLocalEntry, LinkLocalFlowEntry, Route, Routes, StreamEntry};
use ats_num::Name;
use ats_topology::{Port, Topology};
use std::alloc::{AllocError, Global};

/// The streams that these entries stand for, one for each port in the order of their numbers, each with the place of
/// its entry.
pub(crate) fn streams_at_ports(
    alloc: Global,
    topology: &Topology,
    entries: &[LinkLocalEntry],
) -> Result<Vec<(Place, StreamEntry)>, AllocError>
    requires { length entries.now < 2 ^ 31 }
    ensures { IfOk result (λ streams. streams.items
        ≡ placed (streams_at topology.now) tables.LinkLocal 1 entries.now) }
{
    let mut streams = Vec::new(alloc);
    for (before, entry) in entries.iter().enumerate() {
        let place = Place {
            table: SenderTable::LinkLocal,
            number: before as u32 + 1,
        };
        push_streams(alloc, topology, &mut streams, place, entry)?;
    }
    Ok(streams)
}

// Adds the streams that one entry stands for.
fn push_streams(
    alloc: Global,
    topology: &Topology,
    streams: &mut Vec<(Place, StreamEntry)>,
    place: Place,
    entry: &LinkLocalEntry,
) -> Result<(), AllocError>
    ensures { OnOk result (streams.new.items
        ≡ streams.old.items ++ map (at_place place) (streams_at topology.now entry.now)) }
{
    for (number, port) in topology.ports().iter().enumerate() {
        let stream = stream_at(alloc, topology, number as u32, port, entry)?;
        streams.push((place, stream))?;
    }
    Ok(())
}

// The stream that an entry stands for at a port, which has this number.
fn stream_at(
    alloc: Global,
    topology: &Topology,
    number: u32,
    port: &Port,
    entry: &LinkLocalEntry,
) -> Result<StreamEntry, AllocError>
    requires number { number < 10000 }
    requires between { IsBetween (length topology.now.nodes) port.now }
    ensures { IfOk result (λ stream. stream ≡ stream_at topology.now entry.now (number, port.now)) }
{
    let name = name_at(alloc, &entry.name, number)?;
    let path = names_along(alloc, topology, port)?;
    let routes = Routes::Paths(vec![in alloc; path]?);
    let classes = vec![in alloc; entry.class]?;
    Ok(StreamEntry {
        name,
        routes,
        classes,
        rate_bps: entry.rate_bps,
        burst_bits: entry.burst_bits,
        min_octets: entry.min_octets,
        max_octets: entry.max_octets,
        deadline_ns: entry.deadline_ns,
        identity: None,
    })
}

/// The flows that these entries stand for, one for each port in the order of their numbers, each with the place of its
/// entry.
pub(crate) fn flows_at_ports(
    alloc: Global,
    topology: &Topology,
    entries: &[LinkLocalFlowEntry],
) -> Result<Vec<(Place, FlowEntry)>, AllocError>
    requires { length entries.now < 2 ^ 31 }
    ensures { IfOk result (λ flows. flows.items
        ≡ placed (flows_at topology.now) tables.LinkLocalFlow 1 entries.now) }
{
    let mut flows = Vec::new(alloc);
    for (before, entry) in entries.iter().enumerate() {
        let place = Place {
            table: SenderTable::LinkLocalFlow,
            number: before as u32 + 1,
        };
        push_flows(alloc, topology, &mut flows, place, entry)?;
    }
    Ok(flows)
}

// Adds the flows that one entry stands for.
fn push_flows(
    alloc: Global,
    topology: &Topology,
    flows: &mut Vec<(Place, FlowEntry)>,
    place: Place,
    entry: &LinkLocalFlowEntry,
) -> Result<(), AllocError>
    ensures { OnOk result (flows.new.items
        ≡ flows.old.items ++ map (at_place place) (flows_at topology.now entry.now)) }
{
    for (number, port) in topology.ports().iter().enumerate() {
        let flow = flow_at(alloc, topology, number as u32, port, entry)?;
        flows.push((place, flow))?;
    }
    Ok(())
}

// The flow that an entry stands for at a port, which has this number.
fn flow_at(
    alloc: Global,
    topology: &Topology,
    number: u32,
    port: &Port,
    entry: &LinkLocalFlowEntry,
) -> Result<FlowEntry, AllocError>
    requires number { number < 10000 }
    requires between { IsBetween (length topology.now.nodes) port.now }
    ensures { IfOk result (λ flow. flow ≡ flow_at topology.now entry.now (number, port.now)) }
{
    let name = name_at(alloc, &entry.name, number)?;
    let path = names_along(alloc, topology, port)?;
    Ok(FlowEntry {
        name,
        route: Route::Path(path),
        max_octets: entry.max_octets,
    })
}

// The name of the sender at the port with this number, where an entry has this name.
fn name_at(alloc: Global, name: &Name, number: u32) -> Result<Name, AllocError>
    requires short { IsShortName name.now }
    requires number { number < 10000 }
    ensures { IfOk result (λ made. made ≡ name_at name.now number) }
{
    let text = text_at(alloc, name.bytes(), number)?;
    Ok(Name::new(text.as_slice()).unwrap())
}

// The bytes of that name.
fn text_at(alloc: Global, name: &[u8], number: u32) -> Result<Vec<u8>, AllocError>
    ensures { IfOk result (λ text. text.items ≡ name_at name.now number) }
{
    let digits = format!(in alloc; "{number}")?;
    let mut text = Vec::with_capacity(alloc, 32)?;
    text.extend_from_slice(name)?;
    text.push(b'-')?;
    text.extend_from_slice(digits.as_bytes())?;
    Ok(text)
}

// The names of the two nodes that a port joins.
fn names_along(alloc: Global, topology: &Topology, port: &Port) -> Result<Vec<Name>, AllocError>
    requires { IsBetween (length topology.now.nodes) port.now }
    ensures { IfOk result (λ names. names.items ≡ (node_at topology.now.nodes port.now.from).name
        ∷ (node_at topology.now.nodes port.now.to).name ∷ []) }
{
    let nodes = topology.nodes();
    let from = nodes[port.from as usize].name;
    let to = nodes[port.to as usize].name;
    Ok(vec![in alloc; from, to]?)
}
