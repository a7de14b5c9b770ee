//! Least walks between nodes.

ghost use Rattle.std.specs.Prelude.{◌≡◌, ◌+◌, ◌<◌, ◌^◌, ℕ, All, IfOk, OnOk, length, Some, None, IsSome, IfSome, IfNone};
ghost use Rattle.std.specs.Prelude.{is_some};
ghost use Rattle.std.specs.List.{find};
ghost use Rattle.ats_topology.specs.Port.{leaving, port_at, IsBetween, ArePaired};
ghost use Rattle.ats_topology.specs.Walks.{IsLeastWalk, NoWalk, ArePorts};
ghost use Rattle.ats_topology.specs.Search.{AreDistances, Spreads, distance, is_at};

use crate::port_table::PortTable;
use std::alloc::{AllocError, Global};

/// The walk of fewest ports from one node to another, and among those the one whose list of port numbers is first in
/// lexicographic order. `None` exactly where no walk leads there.
pub(crate) fn least_walk(
    alloc: Global,
    table: &PortTable,
    from: u32,
    to: u32,
) -> Result<Option<Vec<u32>>, AllocError>
    requires from { from < table.now.nodes }
    requires to { to < table.now.nodes }
    requires few { table.now.nodes < 2 ^ 32 }
    requires inside { All (IsBetween table.now.nodes) table.now.ports }
    requires paired { ArePaired table.now.ports }
    ensures walk { IfOk result (λ found. IfSome found (λ walk. IsLeastWalk table.now.ports from to walk.items)) }
    ensures ports { IfOk result (λ found. IfSome found (λ walk. ArePorts table.now.ports walk.items)) }
    ensures none { IfOk result (λ found. IfNone found (NoWalk table.now.ports from to)) }
{
    let distances = distances(alloc, table, to)?;
    least_walk_by(alloc, table, &distances, from, to)
}

/// The same by the distances to the node where the walk ends.
pub(crate) fn least_walk_by(
    alloc: Global,
    table: &PortTable,
    distances: &[Option<u32>],
    from: u32,
    to: u32,
) -> Result<Option<Vec<u32>>, AllocError>
    requires from { from < table.now.nodes }
    requires long { length distances.now ≡ table.now.nodes }
    requires inside { All (IsBetween table.now.nodes) table.now.ports }
    requires exact { AreDistances table.now.ports to distances.now }
    ensures walk { IfOk result (λ found. IfSome found (λ walk. IsLeastWalk table.now.ports from to walk.items)) }
    ensures ports { IfOk result (λ found. IfSome found (λ walk. ArePorts table.now.ports walk.items)) }
    ensures none { IfOk result (λ found. IfNone found (NoWalk table.now.ports from to)) }
{
    if distances[from as usize].is_none() {
        return Ok(None);
    }
    let walk = descend(alloc, table, distances, from, to)?;
    Ok(Some(walk))
}

/// For each node the number of ports of the shortest walks from it to one node. Each port that leads to a node that was
/// reached is looked at once.
pub(crate) fn distances(
    alloc: Global,
    table: &PortTable,
    to: u32,
) -> Result<Vec<Option<u32>>, AllocError>
    requires to { to < table.now.nodes }
    requires few { table.now.nodes < 2 ^ 32 }
    requires inside { All (IsBetween table.now.nodes) table.now.ports }
    requires paired { ArePaired table.now.ports }
    ensures long { IfOk result (λ distances. length distances.items ≡ table.now.nodes) }
    ensures exact { IfOk result (λ distances. AreDistances table.now.ports to distances.items) }
{
    let mut distances = vec![in alloc; None; table.nodes()]?;
    distances[to as usize] = Some(0);
    let mut queue = vec![in alloc; to]?;
    let mut head = 0;
    while head < queue.len() {
        let node = queue[head];
        let far = distances[node as usize].unwrap() + 1;
        spread(table, node, far, &mut distances, &mut queue)?;
        head += 1;
    }
    Ok(distances)
}

// Gives a distance to each node that a port of this one leads to and that has none, and adds it to the queue.
fn spread(
    table: &PortTable,
    node: u32,
    far: u32,
    distances: &mut Vec<Option<u32>>,
    queue: &mut Vec<u32>,
) -> Result<(), AllocError>
    requires node { node < table.now.nodes }
    requires long { length distances.old.items ≡ table.now.nodes }
    requires inside { All (IsBetween table.now.nodes) table.now.ports }
    ensures { OnOk result (Spreads table.now.ports (leaving node table.now.ports) far distances.old.items
        distances.new.items queue.old.items queue.new.items) }
{
    let ports = table.ports();
    for p in table.leaving(node) {
        let to = ports[*p as usize].to;
        if distances[to as usize].is_some() {
            continue;
        }
        distances[to as usize] = Some(far);
        queue.push(to)?;
    }
    Ok(())
}

// From each node the first port that leads nearer.
fn descend(
    alloc: Global,
    table: &PortTable,
    distances: &[Option<u32>],
    from: u32,
    to: u32,
) -> Result<Vec<u32>, AllocError>
    requires from { from < table.now.nodes }
    requires long { length distances.now ≡ table.now.nodes }
    requires inside { All (IsBetween table.now.nodes) table.now.ports }
    requires exact { AreDistances table.now.ports to distances.now }
    requires reached { IsSome (distance distances.now from) }
    ensures walk { IfOk result (λ walk. IsLeastWalk table.now.ports from to walk.items) }
    ensures ports { IfOk result (λ walk. ArePorts table.now.ports walk.items) }
{
    let mut walk = Vec::new(alloc);
    let mut at = from;
    while at != to {
        let far = distances[at as usize].unwrap();
        let port = first_port(table, distances, at, far - 1).unwrap();
        walk.push(port)?;
        at = table.ports()[port as usize].to;
    }
    Ok(walk)
}

// The first port of a node that leads to one with this distance.
fn first_port(table: &PortTable, distances: &[Option<u32>], node: u32, far: u32) -> Option<u32>
    requires node { node < table.now.nodes }
    requires long { length distances.now ≡ table.now.nodes }
    requires inside { All (IsBetween table.now.nodes) table.now.ports }
    ensures { result
        ≡ find (λ p. is_at far (distance distances.now (port_at table.now.ports p).to)) (leaving node table.now.ports) }
{
    let ports = table.ports();
    for port in table.leaving(node) {
        if distances[ports[*port as usize].to as usize] == Some(far) {
            return Some(*port);
        }
    }
    None
}
