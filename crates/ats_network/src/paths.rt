//! Paths along the ports of a topology.

ghost use Rattle.std.specs.Prelude.{◌≡◌, ◌↔◌, ◌<◌, length, IsTrue};
ghost use Rattle.ats_topology.specs.Walks.{ArePorts};
ghost use Rattle.ats_topology.specs.Node.{is_station};
ghost use Rattle.ats_topology.specs.Topology.{node_at};
ghost use Rattle.ats_network.specs.Ends.{joins_stations};
ghost use Rattle.ats_network.specs.Listeners.{station_of};
ghost use Rattle.ats_network.specs.Path.{IsValidPath};
ghost use Rattle.ats_network.specs.PathSteps.{walk_end, ends_of, comes_to, part_ways};

use ats_num::Name;
use ats_topology::{Port, Topology};

/// Whether these are the numbers of the ports of a valid path: there is one at least, each exists and
/// leaves the node to which the one before leads, and no node occurs twice. It takes no memory, and
/// compares each two ports of the path at most once.
pub fn is_valid_path(topology: &Topology, path: &[u32]) -> bool
    ensures { IsTrue result ↔ IsValidPath topology.now path.now }
{
    let ports = topology.ports();
    let Some((talker, _)) = ends(ports, path) else {
        return false;
    };
    if comes_to(ports, talker, path) {
        return false;
    }
    part_ways(ports, path)
}

// The nodes between which these ports make a walk, if they are any ports and make one.
fn ends(ports: &[Port], path: &[u32]) -> Option<(u32, u32)>
    ensures { result ≡ ends_of ports.now path.now }
{
    let first = path.first()?;
    let from = ports.get(*first as usize)?.from;
    let to = walk_end(ports, from, path)?;
    Some((from, to))
}

// The node to which a walk from a node along these ports leads, if they make one.
fn walk_end(ports: &[Port], from: u32, path: &[u32]) -> Option<u32>
    ensures { result ≡ walk_end ports.now from path.now }
{
    let mut at = from;
    for p in path {
        let port = ports.get(*p as usize)?;
        if port.from != at {
            return None;
        }
        at = port.to;
    }
    Some(at)
}

// Whether one of the ports leads to this node.
fn comes_to(ports: &[Port], node: u32, path: &[u32]) -> bool
    requires { ArePorts ports.now path.now }
    ensures { result ≡ comes_to ports.now node path.now }
{
    path.iter().any(|p| ports[*p as usize].to == node)
}

// Whether no two of the ports lead to the same node.
fn part_ways(ports: &[Port], path: &[u32]) -> bool
    requires { ArePorts ports.now path.now }
    ensures { result ≡ part_ways ports.now path.now }
{
    for (i, p) in path.iter().enumerate() {
        if comes_to(ports, ports[*p as usize].to, &path[i + 1..]) {
            return false;
        }
    }
    true
}

/// Whether a route begins and ends at stations.
pub fn joins_stations(topology: &Topology, route: &[u32]) -> bool
    requires some { 0 < length route.now }
    requires ports { ArePorts topology.now.ports route.now }
    ensures { result ≡ joins_stations topology.now route.now }
{
    let ports = topology.ports();
    let first = ports[route[0] as usize].from;
    let last = ports[route[route.len() - 1] as usize].to;
    is_station(topology, first) && is_station(topology, last)
}

// Whether a node is a station.
fn is_station(topology: &Topology, node: u32) -> bool
    requires { node < length topology.now.nodes }
    ensures { result ≡ is_station (node_at topology.now.nodes node).kind }
{
    topology.nodes()[node as usize].kind.is_station()
}

/// The name of the node at which a route ends.
pub fn station_of(topology: &Topology, route: &[u32]) -> Name
    requires some { 0 < length route.now }
    requires ports { ArePorts topology.now.ports route.now }
    ensures { result ≡ station_of topology.now route.now }
{
    let ports = topology.ports();
    let last = route[route.len() - 1];
    let node = ports[last as usize].to;
    topology.nodes()[node as usize].name
}
