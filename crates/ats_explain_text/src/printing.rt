//! What is printed of an explanation.

ghost use Rattle.std.specs.Prelude.{◌≡◌, ◌≢◌, ◌++◌, ◌<◌, ◌≤◌, length, slice_index_or, All, AllPairs, IfOk, OnOk};
ghost use Rattle.std.specs.List.{flat_map, enumerate_from};
ghost use Rattle.ats_topology.specs.Port.{port_at};
ghost use Rattle.ats_streams.specs.Branches.{first_from, leg_at, legs_of};
ghost use Rattle.ats_network.specs.Class.{class_at};
ghost use Rattle.ats_network.specs.Edits.{no_stream};
ghost use Rattle.ats_network.specs.Sender.{stream_sender};
ghost use Rattle.ats_tally.specs.Listeners.{listener_at};
ghost use Rattle.ats_explain.specs.Numbers.{listeners_before};
ghost use Rattle.ats_explain.specs.Parts.{HopIsUsed};
ghost use Rattle.ats_explain_text.specs.Text.{explain_text, hop_line, hop_text, listener_lines, port_line, port_text};
ghost use Rattle.ats_explain_text.specs.Text.{stream_line, stream_text, totals_line};

use crate::pieces::{
    write_counts, write_kind, write_named, write_number, write_parts, write_slack, write_tightest,
};
use ats_explain::{Explanation, Margin, Parts, Totals};
use ats_num::Name;
use ats_port_names::write_port;
use ats_streams::Stream;
use ats_tally::listener_name;
use ats_topology::Topology;
use std::alloc::{AllocError, Global};

/// A line for each listener, stream by stream, and behind it one for each port of its leg with the parts of the bound
/// there; a line for each port that a stream uses; and a line of totals. `AllocError` where there is no memory for the
/// text.
#[tactic(auto, unfolding(crate::specs::Text::explain_text))]
pub fn explained(alloc: Global, explanation: &Explanation) -> Result<Vec<u8>, AllocError>
    ensures { IfOk result (λ text. text.items ≡ explain_text explanation.now) }
{
    let mut out = Vec::new(alloc);
    write_streams(&mut out, explanation)?;
    write_ports(&mut out, explanation)?;
    write_totals(&mut out, &explanation.totals())?;
    Ok(out)
}

// The lines of the streams.
fn write_streams(out: &mut Vec<u8>, explanation: &Explanation) -> Result<(), AllocError>
    ensures { OnOk result
        (out.new.items ≡ out.old.items ++ flat_map (stream_text explanation.now) explanation.now.streams) }
{
    let streams = explanation.network().streams();
    let mut before = 0; // so many listeners are those of the streams so far
    for stream in 0..streams.len() as u32 {
        write_stream(out, explanation, before, stream)?;
        before += streams[stream as usize].legs() as usize;
    }
    Ok(())
}

// The lines of each listener of a stream, before which so many are those of other streams.
fn write_stream(
    out: &mut Vec<u8>,
    explanation: &Explanation,
    before: usize,
    stream: u32,
) -> Result<(), AllocError>
    requires before { before ≡ listeners_before explanation.now stream }
    requires stream { stream < length explanation.now.streams }
    ensures { OnOk result (out.new.items ≡ out.old.items
        ++ stream_text explanation.now (slice_index_or explanation.now.streams stream no_stream)) }
{
    for leg in 0..explanation.network().streams()[stream as usize].legs() {
        write_listener(out, explanation, before, stream, leg)?;
    }
    Ok(())
}

// The lines of the listener of a leg.
fn write_listener(
    out: &mut Vec<u8>,
    explanation: &Explanation,
    before: usize,
    stream: u32,
    leg: u32,
) -> Result<(), AllocError>
    requires before { before ≡ listeners_before explanation.now stream }
    requires stream { stream < length explanation.now.streams }
    requires leg { leg ≤ length (slice_index_or explanation.now.streams stream no_stream).branches }
    ensures { OnOk result (out.new.items ≡ out.old.items
        ++ listener_lines explanation.now (slice_index_or explanation.now.streams stream no_stream) (listener_at
        explanation.now.topology (slice_index_or explanation.now.streams stream no_stream) leg)) }
{
    let network = explanation.network();
    let of = &network.streams()[stream as usize];
    let listener = listener_name(network, stream, leg);
    let margin = explanation.margin(before, stream, leg);
    write_margin(out, &of.name(), &listener, &margin)?;
    write_hops(out, explanation, of, leg)?;
    Ok(())
}

// The line of a listener of the stream with this name.
#[tactic(auto, unfolding(crate::specs::Text::stream_line))]
fn write_margin(
    out: &mut Vec<u8>,
    name: &Name,
    listener: &Option<Name>,
    margin: &Margin,
) -> Result<(), AllocError>
    ensures { OnOk result (out.new.items ≡ out.old.items ++ stream_line name.now listener.now margin.now) }
{
    write_kind(out, listener)?;
    write_named(out, name, listener)?;
    write_number(out, b" sum ", margin.sum)?;
    write_number(out, b" deadline ", margin.deadline)?;
    write_slack(out, margin)?;
    out.extend_from_slice(b"\n")?;
    Ok(())
}

// A line for each port of a leg of a stream.
fn write_hops(
    out: &mut Vec<u8>,
    explanation: &Explanation,
    stream: &Stream,
    leg: u32,
) -> Result<(), AllocError>
    requires used { All (HopIsUsed explanation.now stream.now) stream.now.ports }
    requires apart { AllPairs (λ p q. p ≢ q) stream.now.ports }
    requires leg { leg ≤ length stream.now.branches }
    ensures { OnOk result (out.new.items ≡ out.old.items ++ flat_map (hop_text explanation.now stream.now)
        (leg_at (legs_of stream.now.ports stream.now.branches) leg)) }
{
    let first = first_place(stream, leg);
    let classes = stream.classes();
    for (hop, port) in stream.leg(leg).iter().enumerate() {
        write_hop(out, explanation, stream, *port, classes[first + hop])?;
    }
    Ok(())
}

// The place of the first port of a leg among the ports of its stream.
fn first_place(stream: &Stream, leg: u32) -> usize
    requires { leg ≤ length stream.now.branches }
    ensures { result ≡ first_from 0 stream.now.branches leg }
{
    if leg == 0 {
        return 0;
    }
    stream.branch(leg).first as usize
}

// The line of a port, at which the stream has this class.
fn write_hop(
    out: &mut Vec<u8>,
    explanation: &Explanation,
    stream: &Stream,
    port: u32,
    class: u8,
) -> Result<(), AllocError>
    requires used { HopIsUsed explanation.now stream.now port }
    requires class { class ≡ class_at (stream_sender stream.now) port }
    ensures { OnOk result (out.new.items ≡ out.old.items ++ hop_text explanation.now stream.now port) }
{
    let topology = explanation.network().topology();
    let parts = explanation.parts(port, class);
    write_line(out, topology, port, class, &parts)
}

// The line of a port and a class with these parts.
#[tactic(auto, unfolding(crate::specs::Text::hop_line))]
fn write_line(
    out: &mut Vec<u8>,
    topology: &Topology,
    port: u32,
    class: u8,
    parts: &Parts,
) -> Result<(), AllocError>
    requires { port < length topology.now.ports }
    ensures { OnOk result (out.new.items ≡ out.old.items ++ hop_line topology.now port class parts.now) }
{
    out.extend_from_slice(b"hop ")?;
    write_port(out, topology, port)?;
    write_number(out, b" ", class)?;
    write_parts(out, parts)?;
    out.extend_from_slice(b"\n")?;
    Ok(())
}

// The lines of the ports that streams use.
fn write_ports(out: &mut Vec<u8>, explanation: &Explanation) -> Result<(), AllocError>
    ensures { OnOk result (out.new.items
        ≡ out.old.items ++ flat_map (port_text explanation.now) (enumerate_from 0 explanation.now.topology.ports)) }
{
    for port in 0..explanation.network().topology().ports().len() as u32 {
        write_used(out, explanation, port)?;
    }
    Ok(())
}

// The line of a port, where a stream uses it.
fn write_used(out: &mut Vec<u8>, explanation: &Explanation, port: u32) -> Result<(), AllocError>
    requires { port < length explanation.now.topology.ports }
    ensures { OnOk result (out.new.items ≡ out.old.items
        ++ port_text explanation.now (port, port_at explanation.now.topology.ports port)) }
{
    if explanation.uses(port) {
        let topology = explanation.network().topology();
        return write_load(out, topology, port, explanation.load(port));
    }
    Ok(())
}

// The line of a port with a load.
#[tactic(auto, unfolding(crate::specs::Text::port_line))]
fn write_load(
    out: &mut Vec<u8>,
    topology: &Topology,
    port: u32,
    load: u128,
) -> Result<(), AllocError>
    requires { port < length topology.now.ports }
    ensures { OnOk result (out.new.items ≡ out.old.items ++ port_line topology.now port load) }
{
    out.extend_from_slice(b"port ")?;
    write_port(out, topology, port)?;
    write_number(out, b" load ", load)?;
    out.extend_from_slice(b"\n")?;
    Ok(())
}

// The line of totals.
fn write_totals(out: &mut Vec<u8>, totals: &Totals) -> Result<(), AllocError>
    ensures { OnOk result (out.new.items ≡ out.old.items ++ totals_line totals.now) }
{
    write_counts(out, totals)?;
    write_tightest(out, &totals.tightest)?;
    out.extend_from_slice(b"\n")?;
    Ok(())
}
