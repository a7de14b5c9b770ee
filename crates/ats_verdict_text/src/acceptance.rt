//! A certificate that holds, written.

ghost use Rattle.std.specs.Prelude.{◌≡◌, ◌≢◌, ◌++◌, ◌<◌, ◌≤◌, length, slice_index_or, All, AllPairs, IfOk, OnOk};
ghost use Rattle.ats_streams.specs.Branches.{first_from, leg_at, legs_of};
ghost use Rattle.ats_network.specs.Class.{class_at};
ghost use Rattle.ats_network.specs.Edits.{no_stream};
ghost use Rattle.ats_network.specs.Sender.{stream_sender};
ghost use Rattle.ats_tally.specs.Listeners.{listener_at};
ghost use Rattle.ats_verdict_text.specs.Text.{accepted_text, hop_line, hop_lines, listener_lines, stream_lines};
ghost use Rattle.ats_verdict_text.specs.Text.{streams_text};

use crate::pieces::{write_named, write_number};
use ats_port_names::write_port;
use ats_streams::Stream;
use ats_tally::{Bounds, Delays, listener_name};
use ats_topology::Topology;
use std::alloc::{AllocError, Global};

/// What is printed of a certificate that holds for a network: for each listener, stream by stream, a line for each port
/// of its leg with the bound there, and a line with the sum along the route there; then the number of streams. It takes
/// time linear in the sum of the routes' lengths.
///
/// # Errors
///
/// `AllocError` where memory runs out.
pub fn accepted(alloc: Global, delays: &Delays) -> Result<Vec<u8>, AllocError>
    ensures { IfOk result (λ text. text.items ≡ accepted_text delays.now.network delays.now.rows) }
{
    let mut out = Vec::new(alloc);
    write_streams(&mut out, delays)?;
    write_number(&mut out, b"accepted ", delays.network().streams().len())?;
    out.extend_from_slice(b"\n")?;
    Ok(out)
}

// The lines of each stream.
fn write_streams(out: &mut Vec<u8>, delays: &Delays) -> Result<(), AllocError>
    ensures { OnOk result (out.new.items ≡ out.old.items ++ streams_text delays.now.network delays.now.rows) }
{
    for stream in 0..delays.network().streams().len() as u32 {
        write_stream(out, delays, stream)?;
    }
    Ok(())
}

// The lines of each listener of a stream.
fn write_stream(out: &mut Vec<u8>, delays: &Delays, stream: u32) -> Result<(), AllocError>
    requires { stream < length delays.now.network.streams }
    ensures { OnOk result (out.new.items ≡ out.old.items ++ stream_lines delays.now.network.topology delays.now.rows
        (slice_index_or delays.now.network.streams stream no_stream)) }
{
    for leg in 0..delays.network().streams()[stream as usize].legs() {
        write_listener(out, delays, stream, leg)?;
    }
    Ok(())
}

// The lines of the listener of a leg.
fn write_listener(
    out: &mut Vec<u8>,
    delays: &Delays,
    stream: u32,
    leg: u32,
) -> Result<(), AllocError>
    requires stream { stream < length delays.now.network.streams }
    requires leg { leg ≤ length (slice_index_or delays.now.network.streams stream no_stream).branches }
    ensures { OnOk result (out.new.items ≡ out.old.items ++ listener_lines delays.now.network.topology delays.now.rows
        (slice_index_or delays.now.network.streams stream no_stream) (listener_at delays.now.network.topology
        (slice_index_or delays.now.network.streams stream no_stream) leg)) }
{
    let network = delays.network();
    let of = &network.streams()[stream as usize];
    let listener = listener_name(network, stream, leg);
    let sum = delays.along(stream, leg);
    write_hops(out, network.topology(), delays.bounds(), of, leg)?;
    write_named(out, b"sum ", &of.name(), &listener, sum)?;
    out.extend_from_slice(b"\n")?;
    Ok(())
}

// A line for each port of a leg of a stream.
fn write_hops(
    out: &mut Vec<u8>,
    topology: &Topology,
    bounds: &Bounds,
    stream: &Stream,
    leg: u32,
) -> Result<(), AllocError>
    requires ports { bounds.now.ports ≡ length topology.now.ports }
    requires inside { All (λ p. p < length topology.now.ports) stream.now.ports }
    requires apart { AllPairs (λ p q. p ≢ q) stream.now.ports }
    requires leg { leg ≤ length stream.now.branches }
    ensures { OnOk result (out.new.items ≡ out.old.items ++ hop_lines topology.now bounds.now.rows stream.now
        (leg_at (legs_of stream.now.ports stream.now.branches) leg)) }
{
    let first = first_place(stream, leg);
    let classes = stream.classes();
    for (hop, port) in stream.leg(leg).iter().enumerate() {
        write_hop(out, topology, bounds, stream, *port, classes[first + hop])?;
    }
    Ok(())
}

// The place of the first port of a leg among the ports of its stream.
fn first_place(stream: &Stream, leg: u32) -> usize
    requires { leg ≤ length stream.now.branches }
    ensures { result ≡ first_from 0 stream.now.branches leg }
{
    if leg == 0 {
        return 0;
    }
    stream.branch(leg).first as usize
}

// The line of a port, at which the stream has this class.
#[tactic(auto, unfolding(crate::specs::Text::hop_line))]
fn write_hop(
    out: &mut Vec<u8>,
    topology: &Topology,
    bounds: &Bounds,
    stream: &Stream,
    port: u32,
    class: u8,
) -> Result<(), AllocError>
    requires ports { bounds.now.ports ≡ length topology.now.ports }
    requires inside { port < length topology.now.ports }
    requires class { class ≡ class_at (stream_sender stream.now) port }
    requires class_most { class ≤ 7 }
    ensures { OnOk result (out.new.items ≡ out.old.items ++ hop_line topology.now bounds.now.rows stream.now port) }
{
    out.extend_from_slice(b"hop ")?;
    out.extend_from_slice(stream.name().bytes())?;
    out.extend_from_slice(b" ")?;
    write_port(out, topology, port)?;
    write_number(out, b" ", bounds.given(port, class).unwrap_or(0))?;
    out.extend_from_slice(b"\n")?;
    Ok(())
}
