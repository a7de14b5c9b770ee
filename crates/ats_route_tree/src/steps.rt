//! How a route goes off from the legs of those before it.

ghost use Rattle.std.specs.Prelude.{◌≡◌, ◌+◌, ◌<◌, ◌≤◌, ◌^◌, ℕ, List, length, IfSome, take};
ghost use Rattle.std.specs.Str.{bytes_eq};
ghost use Rattle.ats_streams.specs.Branches.{AreBranches, first_from, leg_at, legs_of, routes_of};
ghost use Rattle.ats_topology.specs.Walks.{ArePorts};
ghost use Rattle.ats_network.specs.PathSteps.{comes_to};
ghost use Rattle.ats_route_tree.specs.LegsView.{routes_in};
ghost use Rattle.ats_route_tree.specs.Steps as steps;

use ats_streams::Branch;
use ats_streams::branch::MAX_BRANCHES;
use ats_topology::Port;

/// How many first ports a route has up to the last one that leads to a node of these ports.
pub(crate) fn known_ports(ports: &[Port], numbers: &[u32], route: &[u32]) -> usize
    requires numbers { ArePorts ports.now numbers.now }
    requires route { ArePorts ports.now route.now }
    ensures value { result ≡ steps.known_ports ports.now numbers.now route.now }
    ensures within { result ≤ length route.now }
{
    let mut count = route.len();
    while count > 0 {
        let node = ports[route[count - 1] as usize].to;
        if comes_to(ports, node, numbers) {
            return count;
        }
        count -= 1;
    }
    0
}

// Whether one of the ports leads to this node.
fn comes_to(ports: &[Port], node: u32, numbers: &[u32]) -> bool
    requires { ArePorts ports.now numbers.now }
    ensures { result ≡ comes_to ports.now node numbers.now }
{
    numbers.iter().any(|p| ports[*p as usize].to == node)
}

/// The place among some ports of the first one that leads to a node.
pub(crate) fn place_to(ports: &[Port], node: u32, numbers: &[u32]) -> Option<usize>
    requires { ArePorts ports.now numbers.now }
    ensures value { result ≡ steps.place_to ports.now node numbers.now }
    ensures within { IfSome result (λ place. place < length numbers.now) }
{
    numbers.iter().position(|p| ports[*p as usize].to == node)
}

// The leg that has the port at a place.
fn leg_with(branches: &[Branch], place: usize) -> usize
    ensures value { result ≡ steps.leg_with branches.now place }
    ensures within { result ≤ length branches.now }
    ensures from { first_from 0 branches.now result ≤ place }
{
    let mut leg = 0;
    for branch in branches {
        if place < branch.first as usize {
            return leg;
        }
        leg += 1;
    }
    leg
}

// The place of the first port of a leg.
fn first_place(branches: &[Branch], leg: usize) -> usize
    requires { leg ≤ length branches.now }
    ensures { result ≡ first_from 0 branches.now leg }
{
    if leg == 0 {
        return 0;
    }
    branches[leg - 1].first as usize
}

/// A branch of legs that have so many ports, the last of all, that begins at the node to which the port at a place
/// leads.
pub(crate) fn branch_behind(ports: usize, branches: &[Branch], place: usize) -> Branch
    requires places { (place < ports) × (ports < 2 ^ 31) }
    requires branches { length branches.now < 2 ^ 31 }
    ensures { (numbers : List ℕ) → length numbers ≡ ports
        → result ≡ steps.branch_behind (record { ports = numbers; branches = branches.now }) place }
{
    let leg = leg_with(branches, place);
    let first = first_place(branches, leg);
    Branch {
        first: ports as u32,
        leg: leg as u32,
        hop: (place - first) as u32 + 1,
    }
}

/// Whether a route none of whose ports is known goes off at the talker.
pub(crate) fn goes_off_first(
    ports: &[Port],
    numbers: &[u32],
    branches: &[Branch],
    route: &[u32],
) -> bool
    requires numbers { ArePorts ports.now numbers.now }
    requires route { ArePorts ports.now route.now }
    requires some { (0 < length numbers.now) × (0 < length route.now) }
    ensures { result ≡ steps.goes_off_first ports.now (record { ports = numbers.now; branches = branches.now })
        route.now }
{
    ports[route[0] as usize].from == ports[numbers[0] as usize].from
        && branches.len() < MAX_BRANCHES
}

/// The branch of legs that have so many ports, the last of all, that begins at the talker.
pub(crate) fn branch_first(ports: usize) -> Branch
    requires { ports < 2 ^ 31 }
    ensures { (numbers : List ℕ) (branches : List Branch) → length numbers ≡ ports
        → result ≡ steps.branch_first (record { ports = numbers; branches = branches }) }
{
    Branch {
        first: ports as u32,
        leg: 0,
        hop: 0,
    }
}

/// Whether a route, so many first ports of which are those of another one, goes off there from a leg that goes on. The
/// legs have these routes.
pub(crate) fn goes_off(
    numbers: &[u32],
    branches: &[Branch],
    routes: &[Vec<u32>],
    route: &[u32],
    count: usize,
    branch: Branch,
) -> bool
    requires are { AreBranches numbers.now branches.now }
    requires routes { routes_in routes.now ≡ routes_of numbers.now branches.now }
    requires leg { branch.leg ≤ length branches.now }
    requires some { (0 < count) × (count ≤ length route.now) }
    ensures { result ≡ steps.goes_off (record { ports = numbers.now; branches = branches.now }) route.now count branch }
{
    let leg = branch.leg as usize;
    if count >= route.len() {
        return false;
    }
    if branch.hop as usize >= ports_in(numbers, branches, leg) {
        return false;
    }
    begins_alike(route, &routes[leg], count) && branches.len() < MAX_BRANCHES
}

// Whether two routes have so many first ports in common.
fn begins_alike(route: &[u32], other: &[u32], count: usize) -> bool
    requires { count ≤ length route.now }
    ensures { result ≡ bytes_eq (take count route.now) (take count other.now) }
{
    if count > other.len() {
        return false;
    }
    route[..count] == other[..count]
}

// How many ports a leg has.
fn ports_in(numbers: &[u32], branches: &[Branch], leg: usize) -> usize
    requires are { AreBranches numbers.now branches.now }
    requires leg { leg ≤ length branches.now }
    ensures { result ≡ length (leg_at (legs_of numbers.now branches.now) leg) }
{
    let first = first_place(branches, leg);
    if leg == branches.len() {
        return numbers.len() - first;
    }
    branches[leg].first as usize - first
}
