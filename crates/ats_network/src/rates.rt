//! The rates and bursts of streams at their ports.

ghost use Rattle.std.specs.Prelude.{◌≡◌, ◌↔◌, ◌==◌, ◌||◌, ◌<◌, map, length, position, slice_index_or, IfSome, IsSome};
ghost use Rattle.ats_clock.specs.Rates.{IsCommitted, committed, output_behind, output_of, scheduler_for};
ghost use Rattle.ats_streams.specs.Stream.{IsStream};
ghost use Rattle.ats_topology.specs.Node.{clock_of};
ghost use Rattle.ats_topology.specs.Port.{port_at};
ghost use Rattle.ats_topology.specs.Topology.{IsTopology, node_at};
ghost use Rattle.ats_network.specs.Rates.{IsRated, clock_behind, committed_at, is_committed_over, is_overrated};
ghost use Rattle.ats_network.specs.Rates.{ports_to, scheduled_at, talker_clock};
ghost use Rattle.ats_network.specs.Sender.{stream_sender};

use ats_clock::{Clock, Committed};
use ats_streams::Stream;
use ats_topology::Topology;

/// To which rate and burst the frames of a stream conform in true time where they are eligible at a port. It takes no
/// memory.
pub fn committed_at(topology: &Topology, stream: &Stream, port: u32) -> Committed
    requires { IsRated topology.now (stream_sender stream.now) port }
    ensures { result ≡ committed_at topology.now port (stream_sender stream.now) }
{
    match seen(topology, stream, port) {
        Some(committed) => committed,
        None => declared(stream),
    }
}

/// The rate and burst that a stream's scheduler has behind a port. It takes no memory.
pub fn scheduled_at(topology: &Topology, stream: &Stream, port: u32) -> Committed
    requires { IsRated topology.now (stream_sender stream.now) port }
    ensures { result ≡ scheduled_at topology.now port (stream_sender stream.now) }
{
    if topology.has_ideal_clocks() {
        return declared(stream);
    }
    match scheduled(topology, stream, port) {
        Some(scheduled) => scheduled,
        None => declared(stream),
    }
}

/// Whether a rate or a burst of a stream at one of its ports, or of its scheduler behind the port, is over the limits
/// of a scheduler. It takes no memory.
pub fn is_overrated(topology: &Topology, stream: &Stream) -> bool
    ensures { result ≡ is_overrated topology.now (stream_sender stream.now) }
{
    let _rules = stream.ports(); // for what a stream keeps
    !topology.has_ideal_clocks() && has_port_over(topology, stream)
}

fn has_port_over(topology: &Topology, stream: &Stream) -> bool
    ensures { result ≡ is_overrated topology.now (stream_sender stream.now) }
{
    stream
        .ports()
        .iter()
        .any(|port| is_over(topology, stream, *port))
}

fn is_over(topology: &Topology, stream: &Stream, port: u32) -> bool
    ensures { result ≡ (is_committed_over (committed_at topology.now port (stream_sender stream.now))
        || is_committed_over (scheduled_at topology.now port (stream_sender stream.now))) }
{
    scheduled(topology, stream, port).is_none()
}

// What the stream's scheduler has behind the port; `None` exactly where that is over the limits.
fn scheduled(topology: &Topology, stream: &Stream, port: u32) -> Option<Committed>
    ensures fits { IsSome result ↔ IsCommitted (scheduled_at topology.now port (stream_sender stream.now)) }
    ensures value { IfSome result (λ c. c ≡ scheduled_at topology.now port (stream_sender stream.now)) }
    ensures topology { IsTopology topology.now }
    ensures stream { IsStream stream.now }
{
    let _rules = stream.ports(); // for what a stream keeps
    let clock = clock_behind(topology, port);
    let seen = seen(topology, stream, port)?;
    clock.scheduler_for(seen)
}

// To what the stream's frames conform at the port; `None` exactly where that is over the limits.
fn seen(topology: &Topology, stream: &Stream, port: u32) -> Option<Committed>
    ensures fits { IsSome result ↔ IsCommitted (committed_at topology.now port (stream_sender stream.now)) }
    ensures value { IfSome result (λ c. c ≡ committed_at topology.now port (stream_sender stream.now)) }
{
    let declared = declared(stream);
    if topology.has_ideal_clocks() {
        return Some(declared);
    }
    let sent = talker_clock(topology, stream).output_of(declared)?;
    seen_from(topology, stream, port, sent)
}

// The same, of what the talker lets through.
fn seen_from(topology: &Topology, stream: &Stream, port: u32, sent: Committed) -> Option<Committed>
    requires { IsCommitted sent }
    ensures fits { IsSome result ↔ IsCommitted (output_behind (map (clock_behind topology.now)
        (ports_to (stream_sender stream.now) port)) sent) }
    ensures value { IfSome result (λ c. c ≡ output_behind (map (clock_behind topology.now)
        (ports_to (stream_sender stream.now) port)) sent) }
{
    for leg in 0..stream.legs() {
        let route = stream.route(leg);
        let ports = route.as_slice();
        if let Some(hop) = place_of(ports, port) {
            return seen_along(topology, &ports[..hop], sent);
        }
    }
    Some(sent)
}

// The same, behind these ports.
fn seen_along(topology: &Topology, ports: &[u32], sent: Committed) -> Option<Committed>
    requires { IsCommitted sent }
    ensures fits { IsSome result ↔ IsCommitted (output_behind (map (clock_behind topology.now) ports.now) sent) }
    ensures value { IfSome result (λ c. c ≡ output_behind (map (clock_behind topology.now) ports.now) sent) }
{
    let mut seen = sent;
    for port in ports {
        seen = seen_behind(&clock_behind(topology, *port), seen)?;
    }
    Some(seen)
}

// The same, behind a bridge with this clock.
fn seen_behind(clock: &Clock, arriving: Committed) -> Option<Committed>
    requires { IsCommitted arriving }
    ensures fits { IsSome result ↔ IsCommitted (output_of clock.now (scheduler_for clock.now arriving)) }
    ensures value { IfSome result (λ c. c ≡ output_of clock.now (scheduler_for clock.now arriving)) }
{
    let scheduler = clock.scheduler_for(arriving)?;
    clock.output_of(scheduler)
}

// The declared rate and burst.
fn declared(stream: &Stream) -> Committed
    ensures value { result ≡ committed stream.now.rate stream.now.burst_bits }
    ensures rules { IsCommitted result }
{
    let declared = stream.declared();
    Committed {
        rate: declared.rate,
        burst_bits: declared.burst_bits,
    }
}

fn talker_clock(topology: &Topology, stream: &Stream) -> Clock
    ensures value { result ≡ talker_clock topology.now (stream_sender stream.now) }
    ensures rules { IsTopology topology.now }
{
    let ports = stream.ports();
    let first = if ports.is_empty() { 0 } else { ports[0] };
    let links = topology.ports();
    let talker = if (first as usize) < links.len() {
        links[first as usize].from
    } else {
        0
    };
    topology.clock(talker)
}

fn clock_behind(topology: &Topology, port: u32) -> Clock
    ensures value { result ≡ clock_behind topology.now port }
    ensures rules { IsTopology topology.now }
{
    let links = topology.ports();
    let node = if (port as usize) < links.len() {
        links[port as usize].to
    } else {
        0
    };
    topology.clock(node)
}

// The place of a port among others.
fn place_of(ports: &[u32], port: u32) -> Option<usize>
    ensures place { result ≡ position (λ p. p == port) ports.now }
    ensures within { IfSome result (λ place. place < length ports.now) }
{
    ports.iter().position(|p| *p == port)
}
