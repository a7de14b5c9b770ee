//! The search for the delays of a stream.

ghost use Rattle.std.specs.Prelude.{◌≡◌, ◌<◌, ◌≤◌, length, All, IfOk, IsTrue};
ghost use Rattle.std.specs.List.{AllZip};
ghost use Rattle.ats_network.specs.Network.{IsNetwork};
ghost use Rattle.ats_network.specs.Senders.{sender_at};
ghost use Rattle.ats_certificate.specs.Certificate.{Holds};
ghost use Rattle.ats_certificate.specs.PortSums.{uses};
ghost use Rattle.ats_bound.specs.Least.{least_certificate};
ghost use Rattle.ats_trace.specs.Releases.{AreReleases, HaveFewPorts};
ghost use Rattle.ats_trace.specs.Run.{HasReleases, IsRunBy};
ghost use Rattle.ats_trace.specs.Ways.{route_to};
ghost use Rattle.ats_witness.specs.Burst.{IsBurstFor};
ghost use Rattle.ats_witness.specs.Found.{AreFound, IsFirstGreatest, IsFoundAt, IsWithinBound, greatest_wait};
ghost use Rattle.ats_witness.specs.Last.{last_key};
ghost use Rattle.ats_witness.specs.Played.{IsPlayed};

use crate::burst::releases;
use crate::delay::worst;
use crate::found::Found;
use crate::last::Last;
use ats_engine::Engine;
use ats_events::Up;
use ats_network::Network;
use ats_num::Greatest;
use ats_trace::{Release, Run};
use std::alloc::{AllocError, Global};

/// What is found of a stream for one of its listeners, that of a leg counted from 0, in a network for which a
/// certificate holds: the burst at each port of the route there is run, so that the stream's frames go last of those
/// that tie and each frame arrives behind each port as late as it may, and the greatest delay of the stream for this
/// listener in each run is kept. None is above the sum of the least bounds along the route. It takes the time of one
/// run for each port whose burst is another than that of the port before, and the memory of one. `AllocError` where
/// there is no memory for it.
pub fn witness(
    alloc: Global,
    network: &Network,
    stream: u32,
    listener: u32,
) -> Result<Found, AllocError>
    requires stream { stream < length network.now.streams }
    requires listener { listener ≤ length (sender_at network.now stream).branches }
    requires holds { Holds network.now (least_certificate network.now) }
    ensures found { IfOk result (AreFound network.now stream listener) }
    ensures releases { IfOk result (λ found. AreReleases network.now found.releases) }
    ensures few_ports { IfOk result (λ found. HaveFewPorts network.now found.releases) }
    ensures within { IfOk result (λ found. All (IsWithinBound network.now stream listener) found.delays) }
{
    let delays = delays_of(alloc, network, stream, listener)?;
    let hop = first_greatest(&delays);
    let route = network.sender_route(stream, listener);
    let burst = releases(alloc, network, stream, route.as_slice()[hop])?;
    Ok(Found::new(delays, hop as u32, burst))
}

// The delay found of a stream for a listener at each port of the route there.
fn delays_of(
    alloc: Global,
    network: &Network,
    stream: u32,
    listener: u32,
) -> Result<Vec<u64>, AllocError>
    requires stream { stream < length network.now.streams }
    requires listener { listener ≤ length (sender_at network.now stream).branches }
    requires holds { Holds network.now (least_certificate network.now) }
    ensures each { IfOk result (λ delays. AllZip (IsFoundAt network.now stream listener)
        (route_to (sender_at network.now stream) listener) delays.items) }
    ensures within { IfOk result (λ delays. All (IsWithinBound network.now stream listener) delays.items) }
    ensures rules { IsNetwork network.now }
{
    let route = network.sender_route(stream, listener);
    let ports = route.as_slice();
    let mut delays = Vec::with_capacity(alloc, ports.len())?;
    let burst = releases(alloc, network, stream, ports[0])?;
    let mut played = play(alloc, network, stream, listener, ports[0], burst)?;
    delays.push(played.delay)?;
    for hop in 1..ports.len() {
        played = play_next(alloc, network, stream, listener, ports[hop], played)?;
        delays.push(played.delay)?;
    }
    Ok(delays)
}

// A burst, and the greatest delay of a stream for a listener in a run of it.
#[derive(Drop)]
struct Played {
    burst: Vec<Release>,
    delay: u64,
}

// The burst at a port, where the one at the port before was played: an equal one is not run again.
fn play_next(
    alloc: Global,
    network: &Network,
    stream: u32,
    listener: u32,
    port: u32,
    last: Played,
) -> Result<Played, AllocError>
    requires stream { stream < length network.now.streams }
    requires listener { listener ≤ length (sender_at network.now stream).branches }
    requires port { IsTrue (uses port (sender_at network.now stream)) }
    requires rules { IsNetwork network.now }
    requires holds { Holds network.now (least_certificate network.now) }
    requires last { IsPlayed network.now stream listener last.burst.items last.delay }
    ensures played { IfOk result (λ played.
        IsPlayed network.now stream listener played.burst.items played.delay) }
    ensures burst { IfOk result (λ played. IsBurstFor network.now stream port played.burst.items) }
{
    let next = releases(alloc, network, stream, port)?;
    if next == last.burst {
        return Ok(last);
    }
    play(alloc, network, stream, listener, port, next)
}

// The burst at a port, with the greatest delay of the stream for the listener in its run.
fn play(
    alloc: Global,
    network: &Network,
    stream: u32,
    listener: u32,
    port: u32,
    burst: Vec<Release>,
) -> Result<Played, AllocError>
    requires stream { stream < length network.now.streams }
    requires listener { listener ≤ length (sender_at network.now stream).branches }
    requires port { IsTrue (uses port (sender_at network.now stream)) }
    requires rules { IsNetwork network.now }
    requires holds { Holds network.now (least_certificate network.now) }
    requires releases { AreReleases network.now burst.items }
    requires few_ports { HaveFewPorts network.now burst.items }
    requires burst { IsBurstFor network.now stream port burst.items }
    ensures played { IfOk result (λ played.
        IsPlayed network.now stream listener played.burst.items played.delay) }
    ensures burst { IfOk result (λ played. played.burst.items ≡ burst.items) }
{
    let run = run_of(alloc, network, &burst, stream)?;
    match worst(&run, stream, listener) {
        Some(delay) => Ok(Played { burst, delay }),
        None => unreachable!(),
    }
}

// The run of these releases in which the stream goes last and each frame arrives as late as it may.
fn run_of(
    alloc: Global,
    network: &Network,
    schedule: &[Release],
    stream: u32,
) -> Result<Run, AllocError>
    requires releases { AreReleases network.now schedule.now }
    requires few_ports { HaveFewPorts network.now schedule.now }
    ensures by { IfOk result (IsRunBy (last_key stream) greatest_wait network.now) }
    ensures releases { IfOk result (HasReleases schedule.now) }
{
    let engine = Engine::open(alloc, network, schedule, Last(stream), Up, Greatest)?;
    Ok(engine.run())
}

// The place of the first of the greatest of these numbers.
fn first_greatest(numbers: &[u64]) -> usize
    requires { 0 < length numbers.now }
    ensures { IsFirstGreatest numbers.now result }
{
    let mut first = 0;
    for place in 1..numbers.len() {
        if numbers[place] > numbers[first] {
            first = place;
        }
    }
    first
}
