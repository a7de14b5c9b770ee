//! The lines of one frame.

ghost use Rattle.std.specs.Prelude.{◌≡◌, ◌+◌, ◌++◌, ◌<◌, ◌≤◌, length, OnOk};
ghost use Rattle.std.specs.List.{flat_map, zip};
ghost use Rattle.ats_network.specs.Network.{senders_of};
ghost use Rattle.ats_network.specs.Senders.{sender_at};
ghost use Rattle.ats_streams.specs.Branches.{leg_at};
ghost use Rattle.ats_port_names.specs.PortName.{port_name};
ghost use Rattle.ats_topology.specs.Walks.{ArePorts};
ghost use Rattle.ats_trace.specs.Journey.{IsJourney, legs_at, legs_in};
ghost use Rattle.ats_trace.specs.Stored.{leg_in, travel_at};
ghost use Rattle.ats_replay.specs.Departures.{copy_text, ending_line, frame_line, hop_line, journey_text, leg_lines};
ghost use Rattle.ats_replay.specs.Departures.{sent_text, station_line, verdict_text};

use crate::ended::Ended;
use crate::line::Line;
use crate::lines::write_number;
use ats_group::Verdict;
use ats_network::{Network, station_of};
use ats_num::Ps;
use ats_topology::Topology;
use ats_trace::{Ending, HopRecord, Release, Run};
use std::alloc::AllocError;

// The line of a frame's release.
#[tactic(auto, unfolding(crate::specs::Departures::frame_line))]
fn write_frame(
    out: &mut Vec<u8>,
    network: &Network,
    frame: u32,
    release: &Release,
) -> Result<(), AllocError>
    requires { release.now.sender < length (senders_of network.now) }
    ensures { OnOk result (out.new.items ≡ out.old.items ++ frame_line network.now frame release.now) }
{
    let name = network.sender_name(release.sender);
    write_number(out, b"frame ", frame)?;
    out.extend_from_slice(b" ")?;
    out.extend_from_slice(name.bytes())?;
    write_number(out, b" ", release.octets)?;
    write_number(out, b" ", release.at.0)?;
    out.extend_from_slice(b"\n")?;
    Ok(())
}

// What was decided on a frame.
fn put_verdict(line: &mut Line, verdict: Verdict)
    requires { length line.old ≤ 100 }
    ensures text { line.new ≡ verdict_text verdict ++ line.old }
    ensures short { length line.new ≤ length line.old + 30 }
{
    match verdict {
        Verdict::Eligible(at) => {
            line.put_number(at.0);
            line.put(b" eligible ");
        }
        Verdict::Late(at) => {
            line.put_number(at.0);
            line.put(b" late ");
        }
        Verdict::Size => line.put(b" size"),
    }
}

// When the transmission of a frame began and ended.
fn put_sent(line: &mut Line, sent: Option<(Ps, Ps)>)
    requires { length line.old ≤ 1 }
    ensures text { line.new ≡ sent_text sent ++ line.old }
    ensures short { length line.new ≤ length line.old + 52 }
{
    if let Some((start, end)) = sent {
        line.put_number(end.0);
        line.put(b" end ");
        line.put_number(start.0);
        line.put(b" start ");
    }
}

// The name of a port.
fn put_port(line: &mut Line, topology: &Topology, port: u32)
    requires port { port < length topology.now.ports }
    requires room { length line.old ≤ 150 }
    ensures text { line.new ≡ port_name topology.now port ++ line.old }
    ensures short { length line.new ≤ length line.old + 65 }
{
    let ends = topology.ports()[port as usize];
    let nodes = topology.nodes();
    line.put(nodes[ends.to as usize].name.bytes());
    line.put(b">");
    line.put(nodes[ends.from as usize].name.bytes());
}

// The line of a hop, at this port.
#[tactic(auto, unfolding(crate::specs::Departures::hop_line))]
fn write_hop(
    out: &mut Vec<u8>,
    topology: &Topology,
    port: u32,
    hop: &HopRecord,
) -> Result<(), AllocError>
    requires { port < length topology.now.ports }
    ensures { OnOk result (out.new.items ≡ out.old.items ++ hop_line topology.now (port, hop.now)) }
{
    let mut line = Line::new();
    line.put(b"\n");
    put_sent(&mut line, hop.sent());
    put_verdict(&mut line, hop.verdict());
    line.put_number(hop.arrival().0);
    line.put(b" ");
    put_port(&mut line, topology, port);
    line.put(b"hop ");
    out.extend_from_slice(line.bytes())?;
    Ok(())
}

// The lines of the hops along a path.
fn write_hops(
    out: &mut Vec<u8>,
    topology: &Topology,
    path: &[u32],
    hops: &[HopRecord],
) -> Result<(), AllocError>
    requires ports { ArePorts topology.now.ports path.now }
    requires fit { length hops.now ≤ length path.now }
    ensures { OnOk result
        (out.new.items ≡ out.old.items ++ flat_map (hop_line topology.now) (zip path.now hops.now)) }
{
    for (place, hop) in hops.iter().enumerate() {
        write_hop(out, topology, path[place], hop)?;
    }
    Ok(())
}

// The line of a frame's end along a leg.
fn write_ending(out: &mut Vec<u8>, ending: &Ending) -> Result<(), AllocError>
    ensures { OnOk result (out.new.items ≡ out.old.items ++ ending_line ending.now) }
{
    match ending {
        Ending::Sink(at) => {
            write_number(out, b"sink ", at.0)?;
            out.extend_from_slice(b"\n")?;
        }
        Ending::Discard => out.extend_from_slice(b"discard\n")?,
    }
    Ok(())
}

// The lines of a frame of a run along one leg.
fn write_leg(
    out: &mut Vec<u8>,
    network: &Network,
    run: &Run,
    frame: u32,
    leg: u32,
) -> Result<(), AllocError>
    requires frame { frame < length run.now }
    requires leg { leg < length (legs_in (travel_at run.now frame)) }
    requires journey { IsJourney network.now (travel_at run.now frame) }
    ensures { OnOk result (out.new.items ≡ out.old.items ++ leg_lines network.now.topology
        (leg_at (legs_at network.now (travel_at run.now frame).release.sender) leg)
        (leg_in (travel_at run.now frame) leg)) }
{
    let release = run.release_of(frame);
    let path = network.sender_leg(release.sender, leg);
    let ending = run.ending_of(frame, leg);
    write_hops(out, network.topology(), path, run.hops_of(frame, leg))?;
    write_ending(out, &ending)?;
    Ok(())
}

// The line that says whose listener's the copy along a branch is, by the ports of the branch.
#[tactic(auto, unfolding(crate::specs::Departures::station_line))]
fn write_station(out: &mut Vec<u8>, topology: &Topology, path: &[u32]) -> Result<(), AllocError>
    requires some { 0 < length path.now }
    requires ports { ArePorts topology.now.ports path.now }
    ensures { OnOk result (out.new.items ≡ out.old.items ++ station_line topology.now path.now) }
{
    let station = station_of(topology, path);
    out.extend_from_slice(b"listener ")?;
    out.extend_from_slice(station.bytes())?;
    out.extend_from_slice(b"\n")?;
    Ok(())
}

// The lines of a frame's copy along a branch.
fn write_copy(
    out: &mut Vec<u8>,
    network: &Network,
    run: &Run,
    frame: u32,
    leg: u32,
) -> Result<(), AllocError>
    requires frame { frame < length run.now }
    requires leg { (1 ≤ leg) × (leg < length (legs_in (travel_at run.now frame))) }
    requires journey { IsJourney network.now (travel_at run.now frame) }
    ensures { OnOk result (out.new.items ≡ out.old.items ++ copy_text network.now.topology
        (sender_at network.now (travel_at run.now frame).release.sender)
        (leg, leg_in (travel_at run.now frame) leg)) }
{
    let release = run.release_of(frame);
    let path = network.sender_leg(release.sender, leg);
    write_station(out, network.topology(), path)?;
    write_leg(out, network, run, frame, leg)?;
    Ok(())
}

// All lines of a frame of a run.
#[tactic(auto, unfolding(crate::specs::Departures::journey_text))]
pub(crate) fn write_journey(
    out: &mut Vec<u8>,
    network: &Network,
    run: &Run,
    frame: u32,
) -> Result<(), AllocError>
    requires frame { frame < length run.now }
    requires journey { IsJourney network.now (travel_at run.now frame) }
    ensures { OnOk result
        (out.new.items ≡ out.old.items ++ journey_text network.now (frame, travel_at run.now frame)) }
{
    let release = run.release_of(frame);
    write_frame(out, network, frame, &release)?;
    write_leg(out, network, run, frame, 0)?;
    for leg in 1..run.legs(frame) {
        write_copy(out, network, run, frame, leg)?;
    }
    Ok(())
}
