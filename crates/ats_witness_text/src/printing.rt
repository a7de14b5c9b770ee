//! The text of found delays.

ghost use Rattle.std.specs.Prelude.{◌≡◌, ◌++◌, ◌<◌, ◌≤◌, length, All, OnOk};
ghost use Rattle.std.specs.List.{flat_map, zip};
ghost use Rattle.ats_topology.specs.Walks.{ArePorts};
ghost use Rattle.ats_network.specs.Listeners.{listener_text};
ghost use Rattle.ats_network.specs.Network.{senders_of};
ghost use Rattle.ats_network.specs.Senders.{sender_at};
ghost use Rattle.ats_trace.specs.Releases.{AreReleases, IsRelease};
ghost use Rattle.ats_witness.specs.Found.{AreFound};
ghost use Rattle.ats_witness_text.specs.Text.{found_text, hop_line, release_line, station_at, title_line};
ghost use Rattle.ats_witness_text.specs.Text.{witness_line};

use ats_network::{Network, station_of};
use ats_num::Name;
use ats_port_names::write_port;
use ats_topology::Topology;
use ats_trace::Release;
use ats_witness::Found;
use itoa::{Buffer, Integer};
use std::alloc::AllocError;

/// Appends what is found of a stream for one of its listeners, that of a leg counted from 0: of another listener than
/// the first a line with the stream's name and its node's, then a line for each port of the route to it with the
/// delay found there, a line for each release of the burst at the port of the first hop with a greatest delay, and a
/// last one with the stream's name, for another listener than the first its node's, this delay, a bound, and by how
/// much the bound is above the delay: 0 where it is not. All times are in picoseconds. It takes time linear in the
/// number of lines. `AllocError` where there is no memory for them.
#[tactic(auto, unfolding(crate::specs::Text::found_text))]
pub fn write_found(
    out: &mut Vec<u8>,
    network: &Network,
    stream: u32,
    listener: u32,
    found: &Found,
    bound: u128,
) -> Result<(), AllocError>
    requires stream { stream < length network.now.streams }
    requires listener { listener ≤ length (sender_at network.now stream).branches }
    requires found { AreFound network.now stream listener found.now }
    requires releases { AreReleases network.now found.now.releases }
    ensures { OnOk result
        (out.new.items ≡ out.old.items ++ found_text network.now stream listener found.now bound) }
{
    let name = network.sender_name(stream);
    let station = station_at(network, stream, listener);
    let route = network.sender_route(stream, listener);
    write_title(out, &name, &station)?;
    write_hops(out, network.topology(), route.as_slice(), found.delays())?;
    write_releases(out, network, found.releases())?;
    write_witness(out, &name, &station, found.greatest(), bound)
}

// The name of the node of another listener than the first.
fn station_at(network: &Network, stream: u32, listener: u32) -> Option<Name>
    requires stream { stream < length network.now.streams }
    requires listener { listener ≤ length (sender_at network.now stream).branches }
    ensures { result ≡ station_at network.now stream listener }
{
    if listener == 0 {
        return None;
    }
    let route = network.sender_route(stream, listener);
    Some(station_of(network.topology(), route.as_slice()))
}

// The line in front of what is found for a listener at this node.
#[tactic(auto, unfolding(crate::specs::Text::title_line))]
fn write_title(out: &mut Vec<u8>, stream: &Name, station: &Option<Name>) -> Result<(), AllocError>
    ensures { OnOk result (out.new.items ≡ out.old.items ++ title_line stream.now station.now) }
{
    let Some(_) = station else {
        return Ok(());
    };
    out.extend_from_slice(b"listener ")?;
    write_listener(out, stream, station)?;
    out.extend_from_slice(b"\n")?;
    Ok(())
}

// The name of a stream, and behind it that of the node of a further listener.
fn write_listener(
    out: &mut Vec<u8>,
    stream: &Name,
    station: &Option<Name>,
) -> Result<(), AllocError>
    ensures { OnOk result (out.new.items ≡ out.old.items ++ listener_text stream.now station.now) }
{
    out.extend_from_slice(stream.bytes())?;
    let Some(station) = station else {
        return Ok(());
    };
    out.extend_from_slice(b" ")?;
    out.extend_from_slice(station.bytes())?;
    Ok(())
}

// A line for each port of a route, with the delay found there.
fn write_hops(
    out: &mut Vec<u8>,
    topology: &Topology,
    route: &[u32],
    delays: &[u64],
) -> Result<(), AllocError>
    requires ports { ArePorts topology.now.ports route.now }
    requires fit { length delays.now ≤ length route.now }
    ensures { OnOk result
        (out.new.items ≡ out.old.items ++ flat_map (hop_line topology.now) (zip route.now delays.now)) }
{
    for (hop, delay) in delays.iter().enumerate() {
        write_hop(out, topology, route[hop], *delay)?;
    }
    Ok(())
}

// The line of a port, with the delay found there.
#[tactic(auto, unfolding(crate::specs::Text::hop_line))]
fn write_hop(
    out: &mut Vec<u8>,
    topology: &Topology,
    port: u32,
    delay: u64,
) -> Result<(), AllocError>
    requires { port < length topology.now.ports }
    ensures { OnOk result (out.new.items ≡ out.old.items ++ hop_line topology.now (port, delay)) }
{
    out.extend_from_slice(b"hop ")?;
    write_port(out, topology, port)?;
    write_number(out, b" ", delay)?;
    out.extend_from_slice(b"\n")?;
    Ok(())
}

// A line for each release.
fn write_releases(
    out: &mut Vec<u8>,
    network: &Network,
    releases: &[Release],
) -> Result<(), AllocError>
    requires { All (IsRelease network.now) releases.now }
    ensures { OnOk result
        (out.new.items ≡ out.old.items ++ flat_map (release_line network.now) releases.now) }
{
    for release in releases {
        write_release(out, network, release)?;
    }
    Ok(())
}

// The line of a release.
#[tactic(auto, unfolding(crate::specs::Text::release_line))]
fn write_release(out: &mut Vec<u8>, network: &Network, release: &Release) -> Result<(), AllocError>
    requires { release.now.sender < length (senders_of network.now) }
    ensures { OnOk result (out.new.items ≡ out.old.items ++ release_line network.now release.now) }
{
    let name = network.sender_name(release.sender);
    write_number(out, b"release ", release.at.0)?;
    out.extend_from_slice(b" ")?;
    out.extend_from_slice(name.bytes())?;
    write_number(out, b" ", release.octets)?;
    out.extend_from_slice(b"\n")?;
    Ok(())
}

// The last line, with this name, station, delay and bound.
#[tactic(auto, unfolding(crate::specs::Text::witness_line))]
fn write_witness(
    out: &mut Vec<u8>,
    stream: &Name,
    station: &Option<Name>,
    delay: u64,
    bound: u128,
) -> Result<(), AllocError>
    ensures { OnOk result
        (out.new.items ≡ out.old.items ++ witness_line stream.now station.now delay bound) }
{
    out.extend_from_slice(b"witness ")?;
    write_listener(out, stream, station)?;
    write_number(out, b" delay ", delay)?;
    write_number(out, b" bound ", bound)?;
    write_number(out, b" gap ", bound.saturating_sub(u128::from(delay)))?;
    out.extend_from_slice(b"\n")?;
    Ok(())
}

// A word, and a number behind it.
fn write_number<I: Integer + Drop>(out: &mut Vec<u8>, word: &[u8], n: I) -> Result<(), AllocError>
    ensures { OnOk result (out.new.items ≡ out.old.items ++ (word.now ++ I.text n)) }
{
    let mut buffer = Buffer::new();
    out.extend_from_slice(word)?;
    out.extend_from_slice(buffer.format(n).as_bytes())?;
    Ok(())
}
