//! Steps from a node to a neighbour, which are kept once they are found.

ghost use Rattle.std.specs.Prelude.{◌≡◌, ◌<◌, replicate, None, IfOk, IfSome, Some};
ghost use Rattle.ats_topology.specs.Topology.{DeclaredTopology};
ghost use Rattle.ats_network_file.specs.Routes.{port_to};
ghost use Rattle.ats_network_file.specs.KeptSteps.{AreSteps, IsStep, step_place, goes_to};

use ats_num::Name;
use ats_topology::Topology;
use std::alloc::{AllocError, Global};

/// The most steps that are kept.
pub(crate) const PLACES: usize = 16_384;

/// Ports of one topology that were looked up before. The place of each is given by the node that it
/// leaves and the name of the one that it leads to. Of ports with one place the last is kept.
#[derive(Drop)]
pub(crate) struct KeptSteps {
    ports: Vec<Option<u32>>,
}

impl KeptSteps {
    /// No steps yet.
    pub(crate) fn new(alloc: Global) -> Result<Self, AllocError>
        ensures { (topology : DeclaredTopology) → IfOk result (AreSteps topology) }
    {
        let ports = nothing_kept(alloc)?;
        Ok(KeptSteps { ports })
    }

    /// The port from a node to the one with this name, where a link joins them.
    pub(crate) fn port_to(&mut self, topology: &Topology, from: u32, name: &Name) -> Option<u32>
        requires kept { AreSteps topology.now self.old }
        ensures value { result ≡ port_to topology.now from name.now }
        ensures kept { AreSteps topology.now self.new }
    {
        let place = step_place(from, name);
        if let Some(port) = self.kept_at(topology, place, from, name) {
            return Some(port);
        }
        let to = topology.node_named(name)?;
        let port = topology.port_between(from, to)?;
        self.ports[place] = Some(port);
        Some(port)
    }

    // The port that is kept at a place, where it leads from this node to the one with this name.
    fn kept_at(&self, topology: &Topology, place: usize, from: u32, name: &Name) -> Option<u32>
        requires place { place < PLACES }
        requires kept { AreSteps topology.now self.now }
        ensures { IfSome result (λ port. port_to topology.now from name.now ≡ Some port) }
    {
        let port = self.ports[place]?;
        let _ports = topology.ports(); // for what a topology keeps
        if goes_to(topology, port, from, name) {
            Some(port)
        } else {
            None
        }
    }
}

// As many places as steps are kept, with nothing in them.
fn nothing_kept(alloc: Global) -> Result<Vec<Option<u32>>, AllocError>
    ensures { IfOk result (λ ports. ports.items ≡ replicate PLACES None) }
{
    let ports = vec![in alloc; None; PLACES]?;
    Ok(ports)
}

// The place of the step from a node to the one with this name.
fn step_place(from: u32, name: &Name) -> usize
    ensures value { result ≡ step_place from name.now }
    ensures within { result < PLACES }
{
    let bytes = name.bytes();
    let mut place = from as usize % PLACES;
    for byte in bytes {
        place = (place * 37 + usize::from(*byte)) % PLACES;
    }
    place
}

// Whether a step leads from this node to the one with this name.
fn goes_to(topology: &Topology, port: u32, from: u32, name: &Name) -> bool
    requires { IsStep topology.now.ports port }
    ensures { result ≡ goes_to topology.now port from name.now }
{
    let step = &topology.ports()[port as usize];
    step.from == from && topology.nodes()[step.to as usize].name == *name
}
