//! The lists that a network's schedulers are made of.

ghost use Rattle.std.specs.Prelude.{◌≡◌, ℕ, ◌-◌, ◌*◌, ◌++◌, ◌<◌, ◌≤◌, length, All, IfOk, OnOk, slice_index_or};
ghost use Rattle.std.specs.List.{flat_map};
ghost use Rattle.ats_streams.specs.Branches.{first_from, leg_at, legs_of};
ghost use Rattle.ats_group.specs.declared.member.TheConstants.{MAX_RESIDENCE_NS};
ghost use Rattle.ats_network.specs.Rates.{IsRated, declared_with, scheduled_at};
ghost use Rattle.ats_network.specs.Sender.{stream_sender};
ghost use Rattle.ats_schedulers.specs.Inside.{AreListed, IsListable};
ghost use Rattle.ats_schedulers.specs.Schedulers.{leg_members, member_behind, residence_of};
ghost use Rattle.ats_schedulers.specs.Schedulers.{residences_of, stream_members};

use ats_group::Member;
use ats_network::{Network, scheduled_at};
use ats_streams::{Declared, Stream};
use ats_topology::Topology;
use std::alloc::{AllocError, Global};

/// The number of classes behind each port.
pub const CLASSES: u32 = 8;

// The maximum residence time of a group in nanoseconds, 0 behind a port to a station.
fn residence(network: &Network, group: u32) -> u32
    requires { group < 8 * length network.now.topology.ports }
    ensures value { result ≡ residence_of network.now group }
    ensures most { result ≤ MAX_RESIDENCE_NS }
{
    network.residence(group / CLASSES).unwrap_or(0)
}

// Those of all groups.
pub(crate) fn residences_of(alloc: Global, network: &Network) -> Result<Vec<u32>, AllocError>
    ensures value { IfOk result (λ residences. residences.items ≡ residences_of network.now) }
    ensures most { IfOk result (λ residences. All (λ (r : ℕ). r ≤ MAX_RESIDENCE_NS) residences.items) }
{
    let groups = CLASSES * network.topology().ports().len() as u32;
    let mut residences = Vec::with_capacity(alloc, groups as usize)?;
    for group in 0..groups {
        residences.push(residence(network, group))?;
    }
    Ok(residences)
}

// The scheduler of a stream behind the port at a place among its ports.
fn member(topology: &Topology, stream: &Stream, place: usize) -> Member
    requires stream { IsListable topology.now stream.now }
    requires place { place < length stream.now.ports }
    ensures { result ≡ member_behind topology.now (stream_sender stream.now)
        (slice_index_or stream.now.ports place 0) }
{
    let class = stream.classes()[place];
    let port = stream.ports()[place];
    Member {
        group: CLASSES * port + u32::from(class),
        declared: declared_behind(topology, stream, port),
    }
}

// What a stream's scheduler has behind a port, with the stream's sizes.
fn declared_behind(topology: &Topology, stream: &Stream, port: u32) -> Declared
    requires { IsRated topology.now (stream_sender stream.now) port }
    ensures { result ≡ declared_with (scheduled_at topology.now port (stream_sender stream.now))
        (stream_sender stream.now) }
{
    let scheduler = scheduled_at(topology, stream, port);
    let declared = stream.declared();
    Declared {
        rate: scheduler.rate,
        burst_bits: scheduler.burst_bits,
        min_octets: declared.min_octets,
        max_octets: declared.max_octets,
    }
}

/// The place of the first port of a leg among those of its stream.
pub(crate) fn first_place(stream: &Stream, leg: u32) -> u32
    requires { leg ≤ length stream.now.branches }
    ensures { result ≡ first_from 0 stream.now.branches leg }
{
    if leg == 0 {
        return 0;
    }
    stream.branch(leg).first
}

// Appends the schedulers of a stream along one leg: one behind each of its ports but the last.
fn push_leg(
    members: &mut Vec<Member>,
    topology: &Topology,
    stream: &Stream,
    leg: u32,
) -> Result<(), AllocError>
    requires stream { IsListable topology.now stream.now }
    requires leg { leg ≤ length stream.now.branches }
    ensures { OnOk result (members.new.items ≡ members.old.items
        ++ leg_members topology.now (stream_sender stream.now)
        (leg_at (legs_of stream.now.ports stream.now.branches) leg)) }
{
    let first = first_place(stream, leg) as usize;
    for hop in 0..stream.leg(leg).len() - 1 {
        members.push(member(topology, stream, first + hop))?;
    }
    Ok(())
}

// Appends the schedulers of a stream, leg after leg.
fn push_stream(
    members: &mut Vec<Member>,
    topology: &Topology,
    stream: &Stream,
) -> Result<(), AllocError>
    requires { IsListable topology.now stream.now }
    ensures { OnOk result (members.new.items ≡ members.old.items ++ stream_members topology.now stream.now) }
{
    for leg in 0..stream.legs() {
        push_leg(members, topology, stream, leg)?;
    }
    Ok(())
}

// The schedulers of the streams, one stream after the other, and for each stream the place of its first one.
pub(crate) fn listed(
    alloc: Global,
    topology: &Topology,
    streams: &[Stream],
) -> Result<(Vec<Member>, Vec<u32>), AllocError>
    requires listable { All (IsListable topology.now) streams.now }
    requires few { length (flat_map (stream_members topology.now) streams.now) < 100000 }
    ensures { IfOk result (λ lists. AreListed topology.now streams.now lists.0.items lists.1.items) }
{
    let mut members = Vec::new(alloc);
    let mut firsts = Vec::with_capacity(alloc, streams.len())?;
    for stream in streams {
        firsts.push(members.len() as u32)?;
        push_stream(&mut members, topology, stream)?;
    }
    Ok((members, firsts))
}
