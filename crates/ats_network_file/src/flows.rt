//! The flows that a network file declares.

ghost use Rattle.std.specs.Prelude.{◌≡◌, [], ◌∷◌, IfOk};
ghost use Rattle.ats_num.specs.Failure.{unless};
ghost use Rattle.ats_streams.specs.Stream.{route_fault};
ghost use Rattle.ats_network.specs.Network.{HasShortPath};
ghost use Rattle.ats_network_file.specs.Senders.{flow_over, flow_made};
ghost use Rattle.ats_network_file.specs.declared.fault.NetFault.TheVariants.{Sender};

use crate::fault::NetFault;
use crate::kept_routes::KeptRoutes;
use crate::routes::path_in;
use crate::senders::{Place, SenderEntry, broken, refused};
use ats_network::Network;
use ats_network_table::Format;
use ats_network_toml::FlowEntry;
use ats_num::Failure;
use ats_streams::{Flow, StreamFault};
use std::alloc::Global;

impl SenderEntry for FlowEntry {
    ghost use Rattle.ats_network_file.specs.Senders.{flow_added};

    ghost added = { flow_added };

    fn add(
        &self,
        alloc: Global,
        format: Format,
        network: &mut Network,
        kept: &mut KeptRoutes,
        place: Place,
    ) -> Result<(), Failure<NetFault>> {
        let path = path_in(alloc, format, network.topology(), kept, place, &self.route)?;
        let flow = flow_over(path, network.most_ports(), place, self)?;
        match network.push_flow(flow) {
            Ok(()) => Ok(()),
            Err(failure) => Err(refused(place, failure)),
        }
    }
}

// The flow of an entry over a path, which may have so many ports.
fn flow_over(path: Vec<u32>, most: u32, place: Place, entry: &FlowEntry) -> Result<Flow, NetFault>
    ensures value { result ≡ flow_made most place (flow_over path.items entry.now) }
    ensures path { IfOk result (λ flow. flow.path ≡ path.items) }
    ensures short { IfOk result (HasShortPath most) }
{
    match Flow::new(entry.name, path, entry.max_octets) {
        Ok(flow) => short_flow(flow, most, place),
        Err(fault) => Err(broken(place, fault)),
    }
}

// A flow whose path may have so many ports.
fn short_flow(flow: Flow, most: u32, place: Place) -> Result<Flow, NetFault>
    ensures value { result ≡ unless (Sender place.table place.number) (route_fault most (flow.path ∷ [])) flow }
    ensures short { IfOk result (HasShortPath most) }
{
    if flow.has_short_path(most) {
        Ok(flow)
    } else {
        Err(broken(place, StreamFault::Limit))
    }
}
