//! The streams that a network file declares.

ghost use Rattle.std.specs.Prelude.{◌≡◌, ◌≤◌, IfOk};
ghost use Rattle.ats_streams.specs.Branches.{AreBranches};
ghost use Rattle.ats_route_tree.specs.LegsView.{legs_view};
ghost use Rattle.ats_num.specs.Failure.{Gives, unless};
ghost use Rattle.ats_streams.specs.Stream.{stream_fault, stream_fault_within};
ghost use Rattle.ats_streams.specs.declared.path.TheConstants.{MAX_PORTS};
ghost use Rattle.ats_network.specs.Network.{HasShortRoutes};
ghost use Rattle.ats_network_file.specs.Senders.{stream_over, stream_made};
ghost use Rattle.ats_network_file.specs.declared.fault.NetFault.TheVariants.{Sender};

use crate::fault::NetFault;
use crate::kept_routes::KeptRoutes;
use crate::routes::legs_in;
use crate::senders::{Place, SenderEntry, broken, refused};
use ats_network::{Network, is_overrated};
use ats_network_table::Format;
use ats_network_toml::StreamEntry;
use ats_num::Failure;
use ats_route_tree::Legs;
use ats_streams::{Stream, StreamFault};
use ats_topology::Topology;
use std::alloc::Global;

impl SenderEntry for StreamEntry {
    ghost use Rattle.ats_network_file.specs.Senders.{stream_added};

    ghost added = { stream_added };

    fn add(
        &self,
        alloc: Global,
        format: Format,
        network: &mut Network,
        kept: &mut KeptRoutes,
        place: Place,
    ) -> Result<(), Failure<NetFault>> {
        let legs = legs_in(alloc, format, network.topology(), kept, place, &self.routes)?;
        let most = network.most_ports();
        let stream = stream_over(alloc, network.topology(), legs, most, place, self)?;
        match network.push_stream(stream) {
            Ok(()) => Ok(()),
            Err(failure) => Err(refused(place, failure)),
        }
    }
}

// The stream of an entry over legs of a topology, where a route may have so many ports.
fn stream_over(
    alloc: Global,
    topology: &Topology,
    legs: Legs,
    most: u32,
    place: Place,
    entry: &StreamEntry,
) -> Result<Stream, Failure<NetFault>>
    requires branches { AreBranches legs.ports.items legs.branches.items }
    requires most { most ≤ MAX_PORTS }
    ensures value { Gives result
        (stream_made topology.now most place entry.now (stream_over (legs_view legs) entry.now)) }
    ensures ports { IfOk result (λ stream. stream.ports ≡ legs.ports.items) }
    ensures branches { IfOk result (λ stream. stream.branches ≡ legs.branches.items) }
    ensures short { IfOk result (HasShortRoutes most) }
{
    let stream = short_stream(alloc, legs, most, place, entry)?;
    if is_overrated(topology, &stream) {
        Err(Failure::Fault(broken(place, StreamFault::Limit)))
    } else {
        Ok(stream)
    }
}

// The same, whatever its rate and burst become on its way.
fn short_stream(
    alloc: Global,
    legs: Legs,
    most: u32,
    place: Place,
    entry: &StreamEntry,
) -> Result<Stream, Failure<NetFault>>
    requires branches { AreBranches legs.ports.items legs.branches.items }
    requires most { most ≤ MAX_PORTS }
    ensures value { Gives result (unless (Sender place.table place.number)
        (stream_fault_within most entry.now.classes (stream_over (legs_view legs) entry.now))
        (stream_over (legs_view legs) entry.now)) }
    ensures ports { IfOk result (λ stream. stream.ports ≡ legs.ports.items) }
    ensures branches { IfOk result (λ stream. stream.branches ≡ legs.branches.items) }
    ensures short { IfOk result (HasShortRoutes most) }
{
    let stream = stream_of(alloc, legs, place, entry)?;
    if stream.has_short_routes(most) {
        Ok(stream)
    } else {
        Err(Failure::Fault(broken(place, StreamFault::Limit)))
    }
}

// The same, where a route may have as many ports as that of any stream.
fn stream_of(
    alloc: Global,
    legs: Legs,
    place: Place,
    entry: &StreamEntry,
) -> Result<Stream, Failure<NetFault>>
    requires { AreBranches legs.ports.items legs.branches.items }
    ensures value { Gives result (unless (Sender place.table place.number)
        (stream_fault entry.now.classes (stream_over (legs_view legs) entry.now))
        (stream_over (legs_view legs) entry.now)) }
    ensures ports { IfOk result (λ stream. stream.ports ≡ legs.ports.items) }
    ensures branches { IfOk result (λ stream. stream.branches ≡ legs.branches.items) }
{
    let made = Stream::new(
        alloc,
        entry.name,
        legs.ports,
        legs.branches,
        &entry.classes,
        entry.rate_bps,
        entry.burst_bits,
        entry.min_octets,
        entry.max_octets,
        entry.deadline_ns,
        entry.identity,
    );
    match made {
        Ok(stream) => Ok(stream),
        Err(Failure::Fault(fault)) => Err(Failure::Fault(broken(place, fault))),
        Err(Failure::NoMemory) => Err(Failure::NoMemory),
    }
}
