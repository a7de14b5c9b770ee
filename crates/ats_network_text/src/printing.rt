//! What is printed of a network.

ghost use Rattle.std.specs.Prelude.{◌≡◌, ◌==◌, ◌++◌, ◌<◌, ◌≤◌, ℕ, length, slice_index_or, codes, All, OnOk, IfOk};
ghost use Rattle.std.specs.List.{flat_map, enumerate_from, list_all, slice_range};
ghost use Rattle.ats_topology.specs.Port.{port_at};
ghost use Rattle.ats_topology.specs.Walks.{ArePorts};
ghost use Rattle.ats_streams.specs.Branches.{first_from, leg_at, legs_of};
ghost use Rattle.ats_streams.specs.declared.branch.Branch.{Branch};
ghost use Rattle.ats_streams.specs.Flow.{DeclaredFlow};
ghost use Rattle.ats_network.specs.Edits.{no_stream};
ghost use Rattle.ats_network_text.specs.Text.{port_line, path_text, sender_line, stream_lines, stream_text, flow_line};
ghost use Rattle.ats_network_text.specs.Text.{earliest_text, classes_text, behind_commas, listener_line, show_text};
ghost use Rattle.ats_network_text.specs.Text.{totals_line};

use crate::rates::write_rates;
use ats_network::{Network, station_of};
use ats_port_names::write_port;
use ats_streams::{Flow, Stream};
use ats_topology::{Port, Topology};
use itoa::{Buffer, Integer};
use std::alloc::{AllocError, Global};

/// A line for each port by number, with its picoseconds per bit and its latency in picoseconds, and
/// its earliest latency where that is another; a line for each stream, with one behind it for each of its branches, and
/// one for its rates and bursts where clocks change them, and then a line for each flow; of a stream, a branch and a
/// flow its class, or its classes joined by commas where they differ, and its ports; and a line of totals.
/// `AllocError` where there is no memory for the text.
#[tactic(auto, unfolding(crate::specs::Text::show_text))]
pub fn show(alloc: Global, network: &Network) -> Result<Vec<u8>, AllocError>
    ensures { IfOk result (λ text. text.items ≡ show_text network.now) }
{
    let mut out = Vec::new(alloc);
    let topology = network.topology();
    let (streams, flows) = (network.streams(), network.flows());
    write_ports(&mut out, topology)?;
    write_streams(&mut out, network)?;
    write_flows(&mut out, topology, flows)?;
    write_totals(&mut out, topology.ports().len(), streams.len(), flows.len())?;
    Ok(out)
}

// The lines of the ports.
fn write_ports(out: &mut Vec<u8>, topology: &Topology) -> Result<(), AllocError>
    ensures { OnOk result
        (out.new.items ≡ out.old.items ++ flat_map (port_line topology.now) (enumerate_from 0 topology.now.ports)) }
{
    for port in 0..topology.ports().len() as u32 {
        write_port_line(out, topology, port)?;
    }
    Ok(())
}

// The line of a port.
#[tactic(auto, unfolding(crate::specs::Text::port_line))]
fn write_port_line(out: &mut Vec<u8>, topology: &Topology, port: u32) -> Result<(), AllocError>
    requires { port < length topology.now.ports }
    ensures { OnOk result
        (out.new.items ≡ out.old.items ++ port_line topology.now (port, port_at topology.now.ports port)) }
{
    let sends = topology.ports()[port as usize];
    write_number(out, b"port ", port)?;
    out.extend_from_slice(b" ")?;
    write_port(out, topology, port)?;
    write_number(out, b" ", sends.ps_per_bit)?;
    write_number(out, b" ", sends.latency.0)?;
    write_earliest(out, &sends)?;
    out.extend_from_slice(b"\n")?;
    Ok(())
}

// The earliest latency of a port, where its latency is another.
fn write_earliest(out: &mut Vec<u8>, port: &Port) -> Result<(), AllocError>
    ensures { OnOk result (out.new.items ≡ out.old.items ++ earliest_text port.now) }
{
    if port.spread() == 0 {
        return Ok(());
    }
    write_number(out, b" ", port.earliest.0)
}

// The lines of the streams.
fn write_streams(out: &mut Vec<u8>, network: &Network) -> Result<(), AllocError>
    ensures { OnOk result
        (out.new.items ≡ out.old.items ++ flat_map (stream_text network.now.topology) network.now.streams) }
{
    for stream in 0..network.streams().len() as u32 {
        write_stream_text(out, network, stream)?;
    }
    Ok(())
}

// The lines of the stream with this number, and behind them that of its rates.
fn write_stream_text(out: &mut Vec<u8>, network: &Network, stream: u32) -> Result<(), AllocError>
    requires { stream < length network.now.streams }
    ensures { OnOk result (out.new.items ≡ out.old.items
        ++ stream_text network.now.topology (slice_index_or network.now.streams stream no_stream)) }
{
    let of = &network.streams()[stream as usize];
    write_stream(out, network.topology(), of)?;
    write_rates(out, network, stream)
}

// The line of a stream, and one for each of its branches.
fn write_stream(out: &mut Vec<u8>, topology: &Topology, stream: &Stream) -> Result<(), AllocError>
    requires { ArePorts topology.now.ports stream.now.ports }
    ensures { OnOk result (out.new.items ≡ out.old.items ++ stream_lines topology.now stream.now) }
{
    let name = stream.name();
    let classes = classes_of(stream, 0);
    write_sender(
        out,
        topology,
        b"stream",
        name.bytes(),
        classes,
        stream.leg(0),
    )?;
    write_listeners(out, topology, stream)
}

// The lines of the branches of a stream.
fn write_listeners(
    out: &mut Vec<u8>,
    topology: &Topology,
    stream: &Stream,
) -> Result<(), AllocError>
    requires { ArePorts topology.now.ports stream.now.ports }
    ensures { OnOk result (out.new.items ≡ out.old.items
        ++ flat_map (λ (b : ℕ × Branch). listener_line topology.now stream.now b.0)
        (enumerate_from 1 stream.now.branches)) }
{
    for leg in 1..stream.legs() {
        write_listener(out, topology, stream, leg)?;
    }
    Ok(())
}

// The line of a branch, the leg with this number.
#[tactic(auto, unfolding(crate::specs::Text::sender_line))]
fn write_listener(
    out: &mut Vec<u8>,
    topology: &Topology,
    stream: &Stream,
    leg: u32,
) -> Result<(), AllocError>
    requires ports { ArePorts topology.now.ports stream.now.ports }
    requires leg { leg ≤ length stream.now.branches }
    ensures { OnOk result (out.new.items ≡ out.old.items ++ listener_line topology.now stream.now leg) }
{
    let name = stream.name();
    let route = stream.route(leg);
    let station = station_of(topology, route.as_slice());
    write_name(out, b"listener", name.bytes())?;
    out.extend_from_slice(station.bytes())?;
    out.extend_from_slice(b" ")?;
    write_classes(out, classes_of(stream, leg))?;
    write_path(out, topology, stream.leg(leg))?;
    out.extend_from_slice(b"\n")?;
    Ok(())
}

// The classes of the ports of a leg.
fn classes_of(stream: &Stream, leg: u32) -> &[u8]
    requires { leg ≤ length stream.now.branches }
    ensures { result.now ≡ leg_at (legs_of stream.now.classes stream.now.branches) leg }
{
    let (first, end) = places_of(stream, leg);
    &stream.classes()[first..end]
}

// The places of the first port of a leg and of that behind its last one.
fn places_of(stream: &Stream, leg: u32) -> (usize, usize)
    requires { leg ≤ length stream.now.branches }
    ensures ordered { result.0 ≤ result.1 }
    ensures within { result.1 ≤ length stream.now.classes }
    ensures leg { slice_range stream.now.classes result.0 result.1
        ≡ leg_at (legs_of stream.now.classes stream.now.branches) leg }
{
    let first = first_place(stream, leg);
    let legs = stream.legs();
    if leg + 1 == legs {
        return (first, stream.classes().len());
    }
    (first, stream.branch(leg + 1).first as usize)
}

// The place of the first port of a leg.
fn first_place(stream: &Stream, leg: u32) -> usize
    requires { leg ≤ length stream.now.branches }
    ensures { result ≡ first_from 0 stream.now.branches leg }
{
    if leg == 0 {
        return 0;
    }
    stream.branch(leg).first as usize
}

// The lines of the flows, which have class 0.
fn write_flows(out: &mut Vec<u8>, topology: &Topology, flows: &[Flow]) -> Result<(), AllocError>
    requires { All (λ (f : DeclaredFlow). ArePorts topology.now.ports f.path) flows.now }
    ensures { OnOk result (out.new.items ≡ out.old.items ++ flat_map (flow_line topology.now) flows.now) }
{
    for flow in flows {
        let name = flow.name();
        write_sender(out, topology, b"flow", name.bytes(), &[0], flow.path())?;
    }
    Ok(())
}

// The line of a stream or flow.
#[tactic(auto, unfolding(crate::specs::Text::sender_line))]
fn write_sender(
    out: &mut Vec<u8>,
    topology: &Topology,
    word: &[u8],
    name: &[u8],
    classes: &[u8],
    path: &[u32],
) -> Result<(), AllocError>
    requires { ArePorts topology.now.ports path.now }
    ensures { OnOk result
        (out.new.items ≡ out.old.items ++ sender_line topology.now word.now name.now classes.now path.now) }
{
    write_name(out, word, name)?;
    write_classes(out, classes)?;
    write_path(out, topology, path)?;
    out.extend_from_slice(b"\n")?;
    Ok(())
}

// A word and a name, with a space behind each.
fn write_name(out: &mut Vec<u8>, word: &[u8], name: &[u8]) -> Result<(), AllocError>
    ensures { OnOk result (out.new.items ≡ out.old.items ++ (word.now ++ codes " " ++ name.now ++ codes " ")) }
{
    out.extend_from_slice(word)?;
    out.extend_from_slice(b" ")?;
    out.extend_from_slice(name)?;
    out.extend_from_slice(b" ")?;
    Ok(())
}

// The class that all of these are; where they differ, each of them.
#[tactic(auto, unfolding(crate::specs::Text::classes_text))]
fn write_classes(out: &mut Vec<u8>, classes: &[u8]) -> Result<(), AllocError>
    ensures { OnOk result (out.new.items ≡ out.old.items ++ classes_text classes.now) }
{
    let Some((class, others)) = classes.split_first() else {
        return Ok(());
    };
    write_number(out, b"", *class)?;
    if are_all(others, *class) {
        return Ok(());
    }
    write_behind_commas(out, others)
}

fn are_all(classes: &[u8], class: u8) -> bool
    ensures { result ≡ list_all (λ c. c == class) classes.now }
{
    classes.iter().all(|c| *c == class)
}

// Classes, each behind a comma.
fn write_behind_commas(out: &mut Vec<u8>, classes: &[u8]) -> Result<(), AllocError>
    ensures { OnOk result (out.new.items ≡ out.old.items ++ behind_commas classes.now) }
{
    for class in classes {
        write_number(out, b",", *class)?;
    }
    Ok(())
}

// The ports of a path, with a space before each.
fn write_path(out: &mut Vec<u8>, topology: &Topology, path: &[u32]) -> Result<(), AllocError>
    requires { ArePorts topology.now.ports path.now }
    ensures { OnOk result (out.new.items ≡ out.old.items ++ path_text topology.now path.now) }
{
    for port in path {
        out.extend_from_slice(b" ")?;
        write_port(out, topology, *port)?;
    }
    Ok(())
}

// How many ports, streams and flows there are.
#[tactic(auto, unfolding(crate::specs::Text::totals_line))]
fn write_totals(
    out: &mut Vec<u8>,
    ports: usize,
    streams: usize,
    flows: usize,
) -> Result<(), AllocError>
    ensures { OnOk result (out.new.items ≡ out.old.items ++ totals_line ports streams flows) }
{
    write_number(out, b"total ports ", ports)?;
    write_number(out, b" streams ", streams)?;
    write_number(out, b" flows ", flows)?;
    out.extend_from_slice(b"\n")?;
    Ok(())
}

// A word, and a number behind it.
pub(crate) fn write_number<I: Integer + Drop>(
    out: &mut Vec<u8>,
    word: &[u8],
    n: I,
) -> Result<(), AllocError>
    ensures { OnOk result (out.new.items ≡ out.old.items ++ (word.now ++ I.text n)) }
{
    let mut buffer = Buffer::new();
    out.extend_from_slice(word)?;
    out.extend_from_slice(buffer.format(n).as_bytes())?;
    Ok(())
}
