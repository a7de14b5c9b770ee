//! Routes: of a stream, where its bounds stand along the way to each listener, and its deadline.

ghost use Rattle.std.specs.Prelude.{◌≡◌, ◌+◌, ◌-◌, ◌*◌, ◌^◌, ◌<◌, ◌≤◌, ◌==◌, min, [], length, take, sum_by, All, IfOk};
ghost use Rattle.std.specs.List.{slice_range};
ghost use Rattle.ats_streams.specs.Branches.{AreBranches, first_from, leg_at, legs_of, routes_of};
ghost use Rattle.ats_streams.specs.Path.{IsPath};
ghost use Rattle.ats_streams.specs.declared.path.TheConstants.{MAX_PORTS};
ghost use Rattle.ats_streams.specs.Stream.{IsClass, IsStream};
ghost use Rattle.ats_admission_state.specs.Routes.{AreBounded, IsBounded, bound_of, is_late, places_along, route_of};
ghost use Rattle.ats_admission_state.specs.Routes.{HasRoom, IsRoute, held_state, sum_along};
ghost use Rattle.ats_admission_state.specs.Spares.{IsSpare};

use ats_class_table::PortClassTable;
use ats_num::Ps;
use ats_streams::path::MAX_PORTS;
use ats_streams::{Branch, Stream};
use std::alloc::{AllocError, Global};
use std::marker::Model;

/// Where the bounds of a stream stand along the route to each of its listeners, and its deadline, so that their sums
/// are found without the stream. Contracts see the place of each port, in the order of the stream's ports, the
/// branches, by which these are routes, and the deadline. With one listener it takes the same memory for each stream;
/// with several it takes memory linear in the number of the stream's ports. A list of routes moves one of them at the
/// cost of a pointer.
#[derive(Drop)]
pub struct Route {
    held: Box<Held>,
}

// What a route holds.
#[derive(Drop)]
struct Held {
    deadline: Ps,
    places: [u16; MAX_PORTS], // of a stream with one listener
    count: u8,
    tree: Option<Box<Tree>>, // of a stream with several
}

// The places of a stream with several listeners, one leg after another, and its branches, which cut them into legs.
#[derive(Drop)]
struct Tree {
    places: Vec<u16>,
    branches: Vec<Branch>,
}

impl Model for Route {
    ghost use Rattle.ats_admission_state.specs.Routes.{HasRoom, IsRoute, RouteState, held_state};

    ghost Value = { RouteState };

    ghost view = { λ r. held_state r.held.value };

    ghost invariant = { λ r. HasRoom r.held.value.count × IsRoute (held_state r.held.value) };
}

impl Route {
    /// The routes of a stream, whose ports are below 4096. `AllocError` where memory runs out.
    pub(crate) fn of(alloc: Global, stream: &Stream) -> Result<Self, AllocError>
        requires { All (λ p. p < 4096) stream.now.ports }
        ensures { IfOk result (λ route. route ≡ route_of stream.now) }
    {
        if stream.legs() > 1 {
            let tree = Box::new(alloc, tree_of(alloc, stream)?)?;
            return Self::with_tree(alloc, stream, tree);
        }
        Self::alone(alloc, stream)
    }

    // The route of a stream with one listener. `AllocError` where memory runs out.
    fn alone(alloc: Global, stream: &Stream) -> Result<Self, AllocError>
        requires one_listener { stream.now.branches ≡ [] }
        requires ports { All (λ p. p < 4096) stream.now.ports }
        ensures { IfOk result (λ route. route ≡ route_of stream.now) }
    {
        let path = path_of(stream);
        let held = Held {
            deadline: stream.deadline(),
            places: places_along(path, stream.classes()),
            count: path.len() as u8,
            tree: None,
        };
        Self::holding(alloc, held)
    }

    // The routes of a stream with several listeners, from its places and branches. `AllocError` where memory runs out.
    fn with_tree(alloc: Global, stream: &Stream, tree: Box<Tree>) -> Result<Self, AllocError>
        requires rules { IsStream stream.now }
        requires places { tree.value.places.items ≡ places_along stream.now.ports stream.now.classes }
        requires branches { tree.value.branches.items ≡ stream.now.branches }
        ensures { IfOk result (λ route. route ≡ route_of stream.now) }
    {
        let held = Held {
            deadline: stream.deadline(),
            places: [0; MAX_PORTS],
            count: 0,
            tree: Some(tree),
        };
        Self::holding(alloc, held)
    }

    // The routes that hold this. `AllocError` where memory runs out.
    fn holding(alloc: Global, held: Held) -> Result<Self, AllocError>
        requires room { HasRoom held.count }
        requires routes { IsRoute (held_state held) }
        ensures { IfOk result (λ route. route ≡ held_state held) }
    {
        let held = Box::new(alloc, held)?;
        Ok(Route { held })
    }

    // The number of legs, and of listeners.
    fn legs(&self) -> u32
        ensures { result ≡ 1 + length self.now.branches }
    {
        match &self.held.tree {
            None => 1,
            Some(tree) => tree.branches.len() as u32 + 1,
        }
    }

    // The deadline.
    fn deadline(&self) -> Ps
        ensures { result.0 ≡ self.now.deadline }
    {
        self.held.deadline
    }

    /// The sum of the bounds along the route to the listener of a leg, counted from 0.
    pub(crate) fn sum(&self, bounds: &PortClassTable<u128>, leg: u32) -> u128
        requires leg { leg ≤ length self.now.branches }
        requires bounded { AreBounded bounds.now self.now }
        ensures { result ≡ sum_along bounds.now self.now leg }
    {
        match &self.held.tree {
            None => sum_at(bounds, &self.held.places[..self.held.count as usize]),
            Some(tree) => sum_to(bounds, &tree.places, &tree.branches, leg as usize),
        }
    }

    /// The spare of the route by these bounds: one more than how far the greatest sum for a listener is below the
    /// deadline, and 0 where it is over it.
    pub(crate) fn spare(&self, bounds: &PortClassTable<u128>) -> u64
        requires { AreBounded bounds.now self.now }
        ensures late { is_late bounds.now self.now ≡ (result == 0) }
        ensures spare { IsSpare bounds.now self.now result }
    {
        let mut spare = u64::MAX;
        for leg in 0..self.legs() {
            let below = spare_below(self.deadline(), self.sum(bounds, leg));
            if below == 0 {
                return 0;
            }
            spare = spare.min(below);
        }
        spare
    }
}

// One more than how far a sum is below a deadline, and 0 where it is over it.
fn spare_below(deadline: Ps, sum: u128) -> u64
    ensures { result ≡ min (deadline.0 + 1 - sum) (2 ^ 64 - 1) }
{
    let below = (u128::from(deadline.0) + 1).saturating_sub(sum);
    below.min(u128::from(u64::MAX)) as u64
}

// The ports of a stream with one listener: at most 64.
fn path_of(stream: &Stream) -> &[u32]
    requires { stream.now.branches ≡ [] }
    ensures value { result.now ≡ stream.now.ports }
    ensures few { length result.now ≤ MAX_PORTS }
    ensures rules { IsStream stream.now }
{
    stream.ports()
}

// The places of the ports of a path, with the class at each; 0 behind them.
fn places_along(path: &[u32], classes: &[u8]) -> [u16; MAX_PORTS]
    requires few { length path.now ≤ MAX_PORTS }
    requires count { length classes.now ≡ length path.now }
    requires ports { All (λ p. p < 4096) path.now }
    requires classes { All IsClass classes.now }
    ensures { take (length path.now) result ≡ places_along path.now classes.now }
{
    let mut places = [0; MAX_PORTS];
    for (hop, port) in path.iter().enumerate() {
        places[hop] = 8 * *port as u16 + u16::from(classes[hop]);
    }
    places
}

// The places and the branches of a stream. `AllocError` where memory runs out.
fn tree_of(alloc: Global, stream: &Stream) -> Result<Tree, AllocError>
    requires { All (λ p. p < 4096) stream.now.ports }
    ensures places { IfOk result (λ tree. tree.places.items ≡ places_along stream.now.ports stream.now.classes) }
    ensures branches { IfOk result (λ tree. tree.branches.items ≡ stream.now.branches) }
{
    let places = listed_places(alloc, stream.ports(), stream.classes())?;
    let branches = listed_branches(alloc, stream)?;
    Ok(Tree { places, branches })
}

// The places of ports, with the class at each.
fn listed_places(alloc: Global, ports: &[u32], classes: &[u8]) -> Result<Vec<u16>, AllocError>
    requires count { length classes.now ≡ length ports.now }
    requires ports { All (λ p. p < 4096) ports.now }
    requires classes { All IsClass classes.now }
    ensures { IfOk result (λ places. places.items ≡ places_along ports.now classes.now) }
{
    let mut places = Vec::with_capacity(alloc, ports.len())?;
    for (hop, port) in ports.iter().enumerate() {
        places.push(8 * *port as u16 + u16::from(classes[hop]))?;
    }
    Ok(places)
}

// The branches of a stream.
fn listed_branches(alloc: Global, stream: &Stream) -> Result<Vec<Branch>, AllocError>
    ensures { IfOk result (λ branches. branches.items ≡ stream.now.branches) }
{
    let mut branches = Vec::with_capacity(alloc, stream.legs() as usize)?;
    for leg in 1..stream.legs() {
        branches.push(stream.branch(leg))?;
    }
    Ok(branches)
}

// The sum of the bounds along the route to the listener of a leg, from that leg back to the talker.
fn sum_to(bounds: &PortClassTable<u128>, places: &[u16], branches: &[Branch], leg: usize) -> u128
    requires branches { AreBranches places.now branches.now }
    requires paths { All IsPath (routes_of places.now branches.now) }
    requires leg { leg ≤ length branches.now }
    requires bounded { All (IsBounded bounds.now) places.now }
    ensures { result ≡ sum_by (bound_of bounds.now) (leg_at (routes_of places.now branches.now) leg) }
{
    let mut sum = sum_at(bounds, leg_of(places, branches, leg));
    let mut at = leg;
    while at > 0 {
        let branch = branches[at - 1];
        at = branch.leg as usize;
        let before = leg_of(places, branches, at);
        sum += sum_at(bounds, &before[..branch.hop as usize]);
    }
    sum
}

// The places of a leg.
fn leg_of<'a>(places: &'a [u16], branches: &[Branch], leg: usize) -> &'a [u16]
    requires branches { AreBranches places.now branches.now }
    requires leg { leg ≤ length branches.now }
    ensures { result.now ≡ leg_at (legs_of places.now branches.now) leg }
{
    let (first, end) = span_of(places, branches, leg);
    &places[first..end]
}

// Where the first place of a leg stands, and that behind its last one.
fn span_of(places: &[u16], branches: &[Branch], leg: usize) -> (usize, usize)
    requires branches { AreBranches places.now branches.now }
    requires leg { leg ≤ length branches.now }
    ensures ordered { result.0 ≤ result.1 }
    ensures within { result.1 ≤ length places.now }
    ensures leg { slice_range places.now result.0 result.1 ≡ leg_at (legs_of places.now branches.now) leg }
{
    let first = first_place(branches, leg);
    if leg == branches.len() {
        return (first, places.len());
    }
    (first, branches[leg].first as usize)
}

// Where the first place of a leg stands.
fn first_place(branches: &[Branch], leg: usize) -> usize
    requires { leg ≤ length branches.now }
    ensures { result ≡ first_from 0 branches.now leg }
{
    if leg == 0 {
        return 0;
    }
    branches[leg - 1].first as usize
}

// The sum of the bounds at these places, of which there are at most 64.
fn sum_at(bounds: &PortClassTable<u128>, places: &[u16]) -> u128
    requires few { length places.now ≤ MAX_PORTS }
    requires bounded { All (IsBounded bounds.now) places.now }
    ensures value { result ≡ sum_by (bound_of bounds.now) places.now }
    ensures most { result ≤ length places.now * 10 ^ 36 }
{
    let mut sum = 0;
    for place in places {
        sum += bounds.get(u32::from(*place) / 8, (*place % 8) as u8);
    }
    sum
}
