//! Routes of streams and flows through a topology.

ghost use Rattle.std.specs.Prelude.{◌≡◌, ◌↔◌, ℕ, List, [], ◌∷◌, All, map, IsTrue, IfOk, IfSome};
ghost use Rattle.ats_route_tree.specs.LegsView.{legs_view, paths_view, routes_in};
ghost use Rattle.ats_streams.specs.Branches.{AreBranches};
ghost use Rattle.std.specs.Global.{Vec};
ghost use Rattle.std.specs.List.{list_all};
ghost use Rattle.std.specs.Option.{option_map};
ghost use Rattle.ats_topology.specs.KeptWalks.{AreKeptFor};
ghost use Rattle.ats_network_file.specs.KeptRoutes.{IsKeptFor};
ghost use Rattle.ats_network.specs.Ends.{joins_stations};
ghost use Rattle.ats_network.specs.Path.{IsTree, IsValidPath};
ghost use Rattle.ats_network_toml.specs.Views.{route_view, routes_view};
ghost use Rattle.ats_network_toml.specs.Document as file;
ghost use Rattle.ats_num.specs.Failure.{GivesSeen};
ghost use Rattle.ats_network_file.specs.Routes.{ports_of, ports_onward, is_valid, legs_of, may_declare, path_of};
ghost use Rattle.ats_network_file.specs.Routes.{paths_of};
ghost use Rattle.ats_network_file.specs.KeptSteps.{AreSteps};
ghost use Rattle.ats_network_file.specs.Senders.{legs_in, path_in};

use crate::fault::NetFault;
use crate::kept_routes::KeptRoutes;
use crate::kept_steps::KeptSteps;
use crate::senders::Place;
use ats_network::{is_valid_path, joins_stations, shortest_kept};
use ats_network_table::Format;
use ats_network_toml::{Route, Routes};
use ats_num::{Failure, Name};
use ats_route_tree::{Legs, legs_of};
use ats_topology::{KeptWalks, Topology};
use std::alloc::{AllocError, Global};

/// The ports of the route of a flow's entry, or `BadPath` where they make no valid path that a file of
/// this format may declare.
pub(crate) fn path_in(
    alloc: Global,
    format: Format,
    topology: &Topology,
    kept: &mut KeptRoutes,
    place: Place,
    route: &Route,
) -> Result<Vec<u32>, Failure<NetFault>>
    requires kept { IsKeptFor topology.now kept.old }
    ensures value { GivesSeen (λ path. path.items) result (path_in format topology.now place
        (route_view route.now)) }
    ensures valid { IfOk result (λ path. IsValidPath topology.now path.items) }
    ensures kept { IsKeptFor topology.now kept.new }
{
    let fault = NetFault::BadPath {
        table: place.table,
        entry: place.number,
    };
    let Some(path) = ports_of(alloc, topology, kept, route)? else {
        return Err(Failure::Fault(fault));
    };
    if !is_valid(topology, &path) {
        return Err(Failure::Fault(fault));
    }
    if !may_declare_one(format, topology, &path) {
        return Err(Failure::Fault(fault));
    }
    Ok(path)
}

/// The legs of the tree that has the routes of an entry, or `BadPath` where none has them, or where a
/// file of this format may not declare them.
pub(crate) fn legs_in(
    alloc: Global,
    format: Format,
    topology: &Topology,
    kept: &mut KeptRoutes,
    place: Place,
    routes: &Routes,
) -> Result<Legs, Failure<NetFault>>
    requires kept { IsKeptFor topology.now kept.old }
    ensures value { GivesSeen legs_view result (legs_in format topology.now place
        (routes_view routes.now)) }
    ensures branches { IfOk result (λ legs. AreBranches legs.ports.items legs.branches.items) }
    ensures tree { IfOk result (λ legs. IsTree topology.now legs.ports.items legs.branches.items) }
    ensures kept { IsKeptFor topology.now kept.new }
{
    let fault = NetFault::BadPath {
        table: place.table,
        entry: place.number,
    };
    let Some(paths) = paths_of(alloc, topology, kept, routes)? else {
        return Err(Failure::Fault(fault));
    };
    let Some(legs) = legs_of(alloc, topology, &paths)? else {
        return Err(Failure::Fault(fault));
    };
    if !may_declare(format, topology, &paths) {
        return Err(Failure::Fault(fault));
    }
    Ok(legs)
}

// Whether a file of this format may declare these routes: in format 3 they begin and end at any nodes,
// and before at stations.
fn may_declare(format: Format, topology: &Topology, paths: &[Vec<u32>]) -> bool
    requires { All (IsValidPath topology.now) (routes_in paths.now) }
    ensures { result ≡ may_declare format topology.now (routes_in paths.now) }
{
    match format {
        Format::One => all_join_stations(topology, paths),
        Format::Two => all_join_stations(topology, paths),
        Format::Three => true,
    }
}

// Whether these routes begin and end at stations.
fn all_join_stations(topology: &Topology, paths: &[Vec<u32>]) -> bool
    requires { All (IsValidPath topology.now) (routes_in paths.now) }
    ensures { result ≡ list_all (joins_stations topology.now) (routes_in paths.now) }
{
    for path in paths {
        if !joins_stations(topology, path) {
            return false;
        }
    }
    true
}

// The same of one route.
fn may_declare_one(format: Format, topology: &Topology, path: &[u32]) -> bool
    requires { IsValidPath topology.now path.now }
    ensures { result ≡ may_declare format topology.now (path.now ∷ []) }
{
    match format {
        Format::One => joins_stations(topology, path),
        Format::Two => joins_stations(topology, path),
        Format::Three => true,
    }
}

// The ports of each route of a stream, where each makes a valid path.
fn paths_of(
    alloc: Global,
    topology: &Topology,
    kept: &mut KeptRoutes,
    routes: &Routes,
) -> Result<Option<Vec<Vec<u32>>>, AllocError>
    requires kept { IsKeptFor topology.now kept.old }
    ensures value { IfOk result
        (λ found. option_map paths_view found ≡ paths_of topology.now (routes_view routes.now)) }
    ensures valid { IfOk result (λ found. IfSome found (λ paths. All (IsValidPath topology.now) (paths_view paths))) }
    ensures kept { IsKeptFor topology.now kept.new }
{
    match routes {
        Routes::Paths(paths) => paths_through(alloc, topology, &mut kept.steps, paths),
        Routes::Ends(from, listeners) => {
            paths_between(alloc, topology, &mut kept.walks, from, listeners)
        }
    }
}

// The ports of each path that is named, where each is valid.
fn paths_through(
    alloc: Global,
    topology: &Topology,
    steps: &mut KeptSteps,
    paths: &[Vec<Name>],
) -> Result<Option<Vec<Vec<u32>>>, AllocError>
    requires kept { AreSteps topology.now steps.old }
    ensures value { IfOk result (λ found. option_map paths_view found
        ≡ paths_of topology.now (map file.path (map (λ (names : Vec (List ℕ)). names.items) paths.now))) }
    ensures valid { IfOk result (λ found. IfSome found (λ paths. All (IsValidPath topology.now) (paths_view paths))) }
    ensures kept { AreSteps topology.now steps.new }
{
    let mut found = Vec::with_capacity(alloc, paths.len())?;
    for names in paths {
        let Some(ports) = ports_through(alloc, topology, steps, names)? else {
            return Ok(None);
        };
        if !is_valid(topology, &ports) {
            return Ok(None);
        }
        found.push(ports)?;
    }
    Ok(Some(found))
}

// The ports of the least walk from one node to each of the others, where each makes a valid path.
fn paths_between(
    alloc: Global,
    topology: &Topology,
    walks: &mut KeptWalks,
    from: &Name,
    listeners: &[Name],
) -> Result<Option<Vec<Vec<u32>>>, AllocError>
    requires kept { AreKeptFor topology.now walks.old }
    ensures value { IfOk result (λ found. option_map paths_view found
        ≡ paths_of topology.now (map (file.ends from.now) listeners.now)) }
    ensures valid { IfOk result (λ found. IfSome found (λ paths. All (IsValidPath topology.now) (paths_view paths))) }
    ensures kept { AreKeptFor topology.now walks.new }
{
    let mut found = Vec::with_capacity(alloc, listeners.len())?;
    for to in listeners {
        let Some(ports) = ports_between(alloc, topology, walks, from, to)? else {
            return Ok(None);
        };
        if !is_valid(topology, &ports) {
            return Ok(None);
        }
        found.push(ports)?;
    }
    Ok(Some(found))
}

// Whether these ports make a valid path. Such a path has fewer ports than there are nodes, so that
// of a longer one no two ports are compared.
fn is_valid(topology: &Topology, path: &[u32]) -> bool
    ensures test { result ≡ is_valid topology.now path.now }
    ensures valid { IsTrue result ↔ IsValidPath topology.now path.now }
{
    if path.len() >= topology.nodes().len() {
        return false;
    }
    is_valid_path(topology, path)
}

// The ports of a route: through the nodes that it names, or by the least walk between its ends.
fn ports_of(
    alloc: Global,
    topology: &Topology,
    kept: &mut KeptRoutes,
    route: &Route,
) -> Result<Option<Vec<u32>>, AllocError>
    requires kept { IsKeptFor topology.now kept.old }
    ensures value { IfOk result
        (λ found. option_map (λ (path : Vec ℕ). path.items) found ≡ ports_of topology.now (route_view route.now)) }
    ensures kept { IsKeptFor topology.now kept.new }
{
    match route {
        Route::Path(names) => ports_through(alloc, topology, &mut kept.steps, names),
        Route::Ends(from, to) => ports_between(alloc, topology, &mut kept.walks, from, to),
    }
}

// The ports from one named node to the next.
fn ports_through(
    alloc: Global,
    topology: &Topology,
    steps: &mut KeptSteps,
    names: &[Name],
) -> Result<Option<Vec<u32>>, AllocError>
    requires kept { AreSteps topology.now steps.old }
    ensures value { IfOk result
        (λ found. option_map (λ (path : Vec ℕ). path.items) found ≡ ports_of topology.now (file.path names.now)) }
    ensures kept { AreSteps topology.now steps.new }
{
    let Some((first, rest)) = names.split_first() else {
        return Ok(None);
    };
    let Some(from) = topology.node_named(first) else {
        return Ok(None);
    };
    ports_onward(alloc, topology, steps, from, rest)
}

// The ports from a node through the nodes with these names, one after another.
fn ports_onward(
    alloc: Global,
    topology: &Topology,
    steps: &mut KeptSteps,
    from: u32,
    names: &[Name],
) -> Result<Option<Vec<u32>>, AllocError>
    requires kept { AreSteps topology.now steps.old }
    ensures value { IfOk result
        (λ found. option_map (λ (path : Vec ℕ). path.items) found ≡ ports_onward topology.now from names.now) }
    ensures kept { AreSteps topology.now steps.new }
{
    let mut at = from;
    let mut path = Vec::with_capacity(alloc, names.len())?;
    for name in names {
        let Some(port) = steps.port_to(topology, at, name) else {
            return Ok(None);
        };
        path.push(port)?;
        at = topology.ports()[port as usize].to;
    }
    Ok(Some(path))
}

// The ports of the least walk between two named nodes.
fn ports_between(
    alloc: Global,
    topology: &Topology,
    walks: &mut KeptWalks,
    from: &Name,
    to: &Name,
) -> Result<Option<Vec<u32>>, AllocError>
    requires kept { AreKeptFor topology.now walks.old }
    ensures value { IfOk result
        (λ found. option_map (λ (path : Vec ℕ). path.items) found ≡ ports_of topology.now (file.ends from.now to.now)) }
    ensures kept { AreKeptFor topology.now walks.new }
{
    let Some(a) = topology.node_named(from) else {
        return Ok(None);
    };
    let Some(b) = topology.node_named(to) else {
        return Ok(None);
    };
    shortest_kept(alloc, topology, walks, a, b)
}
