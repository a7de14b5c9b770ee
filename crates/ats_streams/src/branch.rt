//! The branches of a stream, and the legs that its ports make.

ghost use Rattle.std.specs.Prelude.{◌≡◌, ◌≤◌, ◌++◌, ◌||◌, nat_lt, length};
ghost use Rattle.std.specs.List.{list_any, slice_range};
ghost use Rattle.ats_streams.specs.Branches.{AreBranches, first_from, is_bad_route, leads_of, leg_at, legs_of};
ghost use Rattle.ats_streams.specs.Branches.{routes_of};
ghost use Rattle.ats_streams.specs.declared.path.TheConstants.{MAX_PORTS};

/// The most branches of a stream.
pub const MAX_BRANCHES: usize = 65_535;

/// A branch of a stream, on which copies of its frames go to one more listener. Its ports are those of the stream from
/// place `first` on, counted from 0, up to those of the next branch. It begins at the node that port `hop` of leg
/// `leg` leaves, both counted from 0: leg 0 is the trunk, on which the frames go to the first listener, and leg `n` is
/// branch `n - 1`. At hop 0 of leg 0 it begins at the talker, which then is a bridge. None begins at hop 0 of a branch:
/// the hop at which that one begins names the same node.
#[derive(Clone, Copy, Debug, PartialEq, Eq)]
pub struct Branch {
    /// The place of its first port among the stream's ports.
    pub first: u32,
    /// The leg at which it begins.
    pub leg: u32,
    /// The hop of that leg whose port leaves the node where it begins: 0 only where the leg is the trunk.
    pub hop: u32,
}

// The place of the first port of a leg.
fn first_place(branches: &[Branch], leg: usize) -> usize
    requires { leg ≤ length branches.now }
    ensures { result ≡ first_from 0 branches.now leg }
{
    if leg == 0 {
        return 0;
    }
    branches[leg - 1].first as usize
}

// The places of the first port of a leg and of that behind its last one.
fn places_of(ports: &[u32], branches: &[Branch], leg: usize) -> (usize, usize)
    requires branches { AreBranches ports.now branches.now }
    requires leg { leg ≤ length branches.now }
    ensures ordered { result.0 ≤ result.1 }
    ensures within { result.1 ≤ length ports.now }
    ensures leg { slice_range ports.now result.0 result.1 ≡ leg_at (legs_of ports.now branches.now) leg }
{
    let first = first_place(branches, leg);
    if leg == branches.len() {
        return (first, ports.len());
    }
    (first, branches[leg].first as usize)
}

/// The ports of a leg.
pub(crate) fn leg_of<'a>(ports: &'a [u32], branches: &[Branch], leg: usize) -> &'a [u32]
    requires branches { AreBranches ports.now branches.now }
    requires leg { leg ≤ length branches.now }
    ensures { result.now ≡ leg_at (legs_of ports.now branches.now) leg }
{
    let (first, end) = places_of(ports, branches, leg);
    &ports[first..end]
}

/// Whether no route has so many ports, where it has at most this many.
pub(crate) fn is_bad_count(ports: usize, most: usize) -> bool
    ensures { result ≡ (nat_lt ports 1 || nat_lt most ports) }
{
    ports < 1 || ports > most
}

// Whether the route to the listener of a leg has no port, or more than so many.
fn is_bad_route(ports: &[u32], branches: &[Branch], leg: usize, most: usize) -> bool
    requires branches { AreBranches ports.now branches.now }
    requires leg { leg ≤ length branches.now }
    requires most { most ≤ MAX_PORTS }
    ensures { result ≡ is_bad_route most
        (leg_at (leads_of ports.now branches.now) leg ++ leg_at (legs_of ports.now branches.now) leg) }
{
    let mut many = leg_of(ports, branches, leg).len();
    let mut at = leg;
    while at > 0 {
        if many > most {
            return true;
        }
        let branch = branches[at - 1];
        many += branch.hop as usize;
        at = branch.leg as usize;
    }
    is_bad_count(many, most)
}

/// Whether the route to some listener has no port, or more than so many.
pub(crate) fn has_bad_route(ports: &[u32], branches: &[Branch], most: usize) -> bool
    requires branches { AreBranches ports.now branches.now }
    requires most { most ≤ MAX_PORTS }
    ensures { result ≡ list_any (is_bad_route most) (routes_of ports.now branches.now) }
{
    for leg in 0..branches.len() + 1 {
        if is_bad_route(ports, branches, leg, most) {
            return true;
        }
    }
    false
}
