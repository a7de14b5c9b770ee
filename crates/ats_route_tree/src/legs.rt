//! The legs that have given routes.

ghost use Rattle.std.specs.Prelude.{◌≡◌, ◌<◌, ◌^◌, [], All, IfOk, IfSome, if◌then◌else◌, length, Some, None};
ghost use Rattle.std.specs.Option.{option_map};
ghost use Rattle.ats_topology.specs.Walks.{ArePorts};
ghost use Rattle.ats_network.specs.Path.{IsValidPath};
ghost use Rattle.ats_route_tree.specs.Legs.{HaveRoutes};
ghost use Rattle.ats_route_tree.specs.LegsView.{legs_view, routes_in};
ghost use Rattle.ats_route_tree.specs.Steps.{legs_found, with_first, with_route};

use crate::steps::{branch_behind, branch_first, goes_off, goes_off_first, known_ports, place_to};
use ats_streams::Branch;
use ats_topology::{Port, Topology};
use std::alloc::{AllocError, Global};

/// The legs of a stream: the numbers of the ports of its trunk and then of each branch, and its branches.
#[derive(Drop)]
pub struct Legs {
    /// The ports, one leg after another.
    pub ports: Vec<u32>,
    /// The branches, none or more.
    pub branches: Vec<Branch>,
}

/// The legs of the tree that has just these routes, of which the first is that of the trunk; `None` exactly where no
/// tree has them: a listener is on the route to another one, a route begins at another talker, or a node is reached in
/// two ways.
///
/// # Errors
///
/// `AllocError` where memory runs out.
pub fn legs_of(
    alloc: Global,
    topology: &Topology,
    routes: &[Vec<u32>],
) -> Result<Option<Legs>, AllocError>
    requires valid { All (IsValidPath topology.now) (routes_in routes.now) }
    ensures value { IfOk result
        (λ found. option_map legs_view found ≡ legs_found topology.now (routes_in routes.now)) }
    ensures have { IfOk result
        (λ found. IfSome found (λ legs. HaveRoutes topology.now (routes_in routes.now) (legs_view legs))) }
{
    let Some((first, rest)) = routes.split_first() else {
        return Ok(None);
    };
    let mut legs = trunk_of(alloc, first)?;
    for place in 0..rest.len() {
        if !legs.grow(topology, &routes[..place + 1], &rest[place])? {
            return Ok(None);
        }
    }
    Ok(Some(legs))
}

// A trunk without branches.
fn trunk_of(alloc: Global, route: &[u32]) -> Result<Legs, AllocError>
    ensures { IfOk result (λ legs. legs_view legs ≡ record { ports = route.now; branches = [] }) }
{
    let mut ports = Vec::with_capacity(alloc, route.len())?;
    ports.extend_from_slice(route)?;
    Ok(Legs {
        ports,
        branches: Vec::new(alloc),
    })
}

impl Legs {
    // Adds a branch for one more route, and tells whether the route goes off from the legs, which have the routes
    // before it. Else they stay as they were, and so they do where memory runs out, but for their ports.
    fn grow(
        &mut self,
        topology: &Topology,
        routes: &[Vec<u32>],
        route: &[u32],
    ) -> Result<bool, AllocError>
        requires have { HaveRoutes topology.now (routes_in routes.now) (legs_view self.old) }
        requires valid { IsValidPath topology.now route.now }
        ensures value { IfOk result (λ more. (if more then Some (legs_view self.new) else None)
            ≡ with_route topology.now (legs_view self.old) route.now) }
    {
        let ports = topology.ports();
        let count = known_ports(ports, &self.ports, route);
        if count == 0 {
            return self.grow_first(ports, route);
        }
        let node = ports[route[count - 1] as usize].to;
        let Some(place) = place_to(ports, node, &self.ports) else {
            return Ok(false);
        };
        let branch = branch_behind(self.ports.len(), &self.branches, place);
        if !goes_off(&self.ports, &self.branches, routes, route, count, branch) {
            return Ok(false);
        }
        self.ports.extend_from_slice(&route[count..])?;
        self.branches.push(branch)?;
        Ok(true)
    }

    // The same at the talker, for a route none of whose ports is known.
    fn grow_first(&mut self, ports: &[Port], route: &[u32]) -> Result<bool, AllocError>
        requires numbers { ArePorts ports.now self.old.ports.items }
        requires route { ArePorts ports.now route.now }
        requires some { (0 < length self.old.ports.items) × (0 < length route.now) }
        requires few { length self.old.ports.items < 2 ^ 31 }
        ensures { IfOk result (λ more. (if more then Some (legs_view self.new) else None)
            ≡ with_first ports.now (legs_view self.old) route.now) }
    {
        if !goes_off_first(ports, &self.ports, &self.branches, route) {
            return Ok(false);
        }
        let branch = branch_first(self.ports.len());
        self.ports.extend_from_slice(route)?;
        self.branches.push(branch)?;
        Ok(true)
    }
}
