//! The transmissions of a port in a run.

ghost use Rattle.std.specs.Prelude.{◌≡◌, ◌++◌, ◌<◌, ◌==◌, length, map, All, IfOk, IfSome, OnOk, slice_index_or};
ghost use Rattle.std.specs.List.{position_from};
ghost use Rattle.ats_network.specs.Class.{class_at};
ghost use Rattle.ats_network.specs.Senders.{sender_at};
ghost use Rattle.ats_trace.specs.Journey.{IsJourney, legs_in};
ghost use Rattle.ats_trace.specs.Projections.{sent_by};
ghost use Rattle.ats_trace.specs.Stored.{travel_at};
ghost use Rattle.ats_port_capture.specs.Sightings.{IsWritable, listed, sent_in, sent_of, sighting_of};

use crate::sighting::Sighting;
use ats_network::Network;
use ats_trace::{Release, Run};
use std::alloc::{AllocError, Global};

// The transmissions of a port in a run, frame by frame.
pub(crate) fn sent_by(
    alloc: Global,
    network: &Network,
    run: &Run,
    port: u32,
) -> Result<Vec<Sighting>, AllocError>
    requires { All (IsJourney network.now) run.now }
    ensures all { IfOk result (λ sent. sent.items
        ≡ map (sighting_of run.now) (sent_by network.now run.now port)) }
    ensures each { IfOk result (λ sent. All IsWritable sent.items) }
{
    let mut sent = Vec::new(alloc);
    for frame in 0..run.len() as u32 {
        push_sent(&mut sent, network, run, port, frame)?;
    }
    Ok(sent)
}

// Adds the transmission of a frame, if the port sent it.
fn push_sent(
    sent: &mut Vec<Sighting>,
    network: &Network,
    run: &Run,
    port: u32,
    frame: u32,
) -> Result<(), AllocError>
    requires journeys { All (IsJourney network.now) run.now }
    requires frame { frame < length run.now }
    requires each { All IsWritable sent.old.items }
    ensures all { OnOk result (sent.new.items ≡ sent.old.items
        ++ map (sighting_of run.now) (sent_of network.now port frame (travel_at run.now frame))) }
    ensures each { OnOk result (All IsWritable sent.new.items) }
{
    let sender = release_of(run, frame).sender;
    match place_of(network.sender_ports(sender), port) {
        Some(place) => {
            let class = network.sender_class(sender, place as u32);
            push_legs(sent, network, run, port, class, frame)
        }
        None => Ok(()),
    }
}

// Adds the transmission of a frame by a port, at which its sender has this class, leg by leg: one leg has the port.
fn push_legs(
    sent: &mut Vec<Sighting>,
    network: &Network,
    run: &Run,
    port: u32,
    class: u8,
    frame: u32,
) -> Result<(), AllocError>
    requires journeys { All (IsJourney network.now) run.now }
    requires frame { frame < length run.now }
    requires class { class ≡ class_at (sender_at network.now (travel_at run.now frame).release.sender) port }
    requires each { All IsWritable sent.old.items }
    ensures all { OnOk result (sent.new.items ≡ sent.old.items
        ++ map (sighting_of run.now) (sent_of network.now port frame (travel_at run.now frame))) }
    ensures each { OnOk result (All IsWritable sent.new.items) }
{
    for leg in 0..run.legs(frame) {
        push_leg(sent, network, run, port, class, frame, leg)?;
    }
    Ok(())
}

// Adds the transmission of a frame by a port along one leg, if it made one there.
fn push_leg(
    sent: &mut Vec<Sighting>,
    network: &Network,
    run: &Run,
    port: u32,
    class: u8,
    frame: u32,
    leg: u32,
) -> Result<(), AllocError>
    requires journeys { All (IsJourney network.now) run.now }
    requires frame { frame < length run.now }
    requires leg { leg < length (legs_in (travel_at run.now frame)) }
    requires class { class ≡ class_at (sender_at network.now (travel_at run.now frame).release.sender) port }
    requires each { All IsWritable sent.old.items }
    ensures all { OnOk result (sent.new.items ≡ sent.old.items
        ++ map (sighting_of run.now) (sent_in network.now port frame (travel_at run.now frame) leg)) }
    ensures each { OnOk result (All IsWritable sent.new.items) }
{
    if let Some(sighting) = sighting_of(network, run, port, class, frame, leg) {
        sent.push(sighting)?;
    }
    Ok(())
}

// The transmission of a frame by a port along one leg, if it made one there.
fn sighting_of(
    network: &Network,
    run: &Run,
    port: u32,
    class: u8,
    frame: u32,
    leg: u32,
) -> Option<Sighting>
    requires journeys { All (IsJourney network.now) run.now }
    requires frame { frame < length run.now }
    requires leg { leg < length (legs_in (travel_at run.now frame)) }
    requires class { class ≡ class_at (sender_at network.now (travel_at run.now frame).release.sender) port }
    ensures all { listed result
        ≡ map (sighting_of run.now) (sent_in network.now port frame (travel_at run.now frame) leg) }
    ensures each { IfSome result IsWritable }
{
    let release = release_of(run, frame);
    let hop = place_of(network.sender_leg(release.sender, leg), port)?;
    let (start, _) = run.hops_of(frame, leg).get(hop)?.sent()?;
    Some(Sighting {
        start,
        octets: release.octets,
        sender: release.sender,
        class,
    })
}

// The release of a frame.
#[tactic(auto, using(crate::proofs::Frames::rows_long, crate::proofs::Frames::row_at))]
fn release_of(run: &Run, frame: u32) -> Release
    requires { frame < length run.now }
    ensures { result ≡ (travel_at run.now frame).release }
{
    run.journeys()[frame as usize].release
}

// The place of a port among these, if it is there.
fn place_of(ports: &[u32], port: u32) -> Option<usize>
    ensures place { result ≡ position_from (λ p. p == port) 0 ports.now }
    ensures within { IfSome result (λ place. place < length ports.now) }
    ensures port { IfSome result (λ place. slice_index_or ports.now place 0 ≡ port) }
{
    ports.iter().position(|p| *p == port)
}
