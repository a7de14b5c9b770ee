//! What is proved of listeners.

ghost use Rattle.ats_listener_law.specs.Listeners.{ListenersAreLegByLeg, NamesOfListenersDiffer};
ghost use Rattle.ats_listener_law.specs.Listeners.{StationIsAtTheEnd};
ghost use Rattle.ats_listener_law.specs.Once.{EachIsSeenOnce, FirstSumIsTheTrunks};
ghost use Rattle.ats_listener_law.specs.Once.{RatesAreSeenOnce, UsesItsPorts};
ghost use Rattle.ats_listener_law.specs.OneListener.{OneArrivalIsInTime, OneIsFirstOverdue};
ghost use Rattle.ats_listener_law.specs.OneListener.{OneListenerHasAllPorts, OneMarginForEach};
ghost use Rattle.ats_listener_law.specs.OneListener.{OnePathComesTo};
ghost use Rattle.ats_listener_law.specs.Routes.{BranchesBeginAtBridges, RoutesTurnOff};
ghost use Rattle.ats_listener_law.specs.Ways.{EachWayIsInTime, EachWayIsServed, OneForEachLeg};
ghost use Rattle.ats_listener_law.specs.Ways.{WaysAreWays};

/// A law: a stream has a route for its trunk and one for each branch. The first is the trunk, and
/// each further one goes along an earlier one up to where its branch begins, and then along the
/// branch.
pub fn routes_turn_off()
    ensures { RoutesTurnOff }
{}

/// A law: each branch of a tree begins at a bridge, also where it begins at the talker.
pub fn branches_begin_at_bridges()
    ensures { BranchesBeginAtBridges }
{}

/// A law: the listeners of a stream are told leg by leg, each with the ports of its leg and the
/// route that ends with the leg. The first has no name, and each further one that of the node at
/// the end of its route.
pub fn listeners_are_leg_by_leg()
    ensures { ListenersAreLegByLeg }
{}

/// A law: the node at the end of a valid path, after which a listener is named, is the one to
/// which the path leads.
pub fn station_is_at_the_end()
    ensures { StationIsAtTheEnd }
{}

/// A law: in a network no two listeners of a stream go by one name.
pub fn names_of_listeners_differ()
    ensures { NamesOfListenersDiffer }
{}

/// A law: a sender has a listener for its trunk, and one for each branch.
pub fn one_for_each_leg()
    ensures { OneForEachLeg }
{}

/// A law: of each frame of a network, whatever becomes of it, what is taken as its way to a
/// listener is a way over the route there, from its release on.
pub fn ways_are_ways()
    ensures { WaysAreWays }
{}

/// A law: a frame is served, and is contained, exactly where it is so on its way along each route
/// of its sender, one by one.
pub fn each_way_is_served()
    ensures { EachWayIsServed }
{}

/// A law: and it arrives in time exactly where it does at the end of each.
pub fn each_way_is_in_time()
    ensures { EachWayIsInTime }
{}

/// A law: a sender uses a port exactly where it is one of its ports.
pub fn uses_its_ports()
    ensures { UsesItsPorts }
{}

/// A law: a port sees each sender that uses it once, however many listeners are behind.
pub fn each_is_seen_once()
    ensures { EachIsSeenOnce }
{}

/// A law: and the load of a port has the rate that it sees of each stream that uses it once.
pub fn rates_are_seen_once()
    ensures { RatesAreSeenOnce }
{}

/// A law: the first sum of a stream is that of its trunk, and those along the routes to its further
/// listeners follow.
pub fn first_sum_is_the_trunks()
    ensures { FirstSumIsTheTrunks }
{}

/// A law: where a stream has no branch, its one listener has no name, and all ports are its leg and
/// its route.
pub fn one_listener_has_all_ports()
    ensures { OneListenerHasAllPorts }
{}

/// A law: where a sender has no branch, the port before another one is the one in front of it among
/// its ports.
pub fn one_path_comes_to()
    ensures { OnePathComesTo }
{}

/// A law: where a stream has no branch, a frame of it arrives in time exactly where it does at the
/// end of all ports.
pub fn one_arrival_is_in_time()
    ensures { OneArrivalIsInTime }
{}

/// A law: where no stream has a branch, there is one margin for each. The totals count the streams
/// that are late and the hops of their paths, and tell the first stream of the least slack.
pub fn one_margin_for_each()
    ensures { OneMarginForEach }
{}

/// A law: where no stream has a branch, the first that is overdue is the first whose bounds are
/// together over its deadline, and no listener is named.
pub fn one_is_first_overdue()
    ensures { OneIsFirstOverdue }
{}
