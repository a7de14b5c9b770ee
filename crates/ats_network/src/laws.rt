//! Laws of the definitions.

ghost use Rattle.ats_network.specs.Laws.{ClassIsByHop, EachIsSender, EachRouteIsAPath, EachRouteIsShort};
ghost use Rattle.ats_network.specs.Laws.{EachSenderHasPath};
ghost use Rattle.ats_network.specs.Laws.{OneListenerIsAPath};
ghost use Rattle.ats_network.specs.Laws.{FlowsHaveNoRate, IdealClocksKeepRates, RatesAreNoLess};
ghost use Rattle.ats_network.specs.Laws.{LeastWalksMakeATree, PathsMeetAtBridges, ShortestIsLeast, StationsEndApart};

/// A law: each sender of a network keeps a sender's rules.
pub fn each_is_sender()
    ensures { EachIsSender }
{}

/// A law: no route of a sender has more ports than its network allows, which is 16 or 64.
pub fn each_route_is_short()
    ensures { EachRouteIsShort }
{}

/// A law: where each stream of a network has one listener, each sender's ports are a path.
pub fn each_sender_has_path()
    ensures { EachSenderHasPath }
{}

/// A law: a sender's class at one of its ports is the class at the port's place among them, since
/// no port is there twice.
pub fn class_is_by_hop()
    ensures { ClassIsByHop }
{}

/// A law: each route of a tree is a valid path.
pub fn each_route_is_a_path()
    ensures { EachRouteIsAPath }
{}

/// A law: ports without branches are a tree just where they are a valid path, and this path is the one route. So with
/// one listener each, a network is what it is without branches.
pub fn one_listener_is_a_path()
    ensures { OneListenerIsAPath }
{}

/// A law: each port of a valid path but the last leads to a bridge, and each but the first leaves one.
pub fn paths_meet_at_bridges()
    ensures { PathsMeetAtBridges }
{}

/// A law: the walk that `shortest_of` computes is the least, and where it computes none, no walk leads there.
pub fn shortest_is_least()
    ensures { ShortestIsLeast }
{}

/// A law: valid least walks from one node are the routes of a trunk and branches exactly where no listener is on the
/// way to another one.
pub fn least_walks_make_a_tree()
    ensures { LeastWalksMakeATree }
{}

/// A law: no station is on the way to another one, of valid paths from one node to different stations.
pub fn stations_end_apart()
    ensures { StationsEndApart }
{}

/// A law: at each port, the rate and burst to which a sender's frames conform in true time are no less than declared,
/// and what its scheduler is to have behind the port is no less than these.
pub fn rates_are_no_less()
    ensures { RatesAreNoLess }
{}

/// A law: where the clocks of all nodes are ideal, rates and bursts are the declared ones at each port.
pub fn ideal_clocks_keep_rates()
    ensures { IdealClocksKeepRates }
{}

/// A law: a flow, which has neither rate nor burst, has none at any port.
pub fn flows_have_no_rate()
    ensures { FlowsHaveNoRate }
{}
