//! Streams with several listeners over small networks: which are trees, and along which routes their frames go.

ghost use Rattle.ats_tree_examples.specs.Trees.{BranchesBeginEarlier, LeastWalksAreWorked, OtherWaysAreRefused};
ghost use Rattle.ats_tree_examples.specs.Trees.{LongerWaysAreTrees, RoutesAreWorked, TreesAreNetworks};

/// A stream with two listeners behind one bridge, one whose second listener is another stream's talker, and one with
/// four listeners behind three bridges are streams of networks.
pub fn trees_are_networks()
    ensures { TreesAreNetworks }
{}

/// The legs of these streams, what is in front of each, and their routes; their listeners in the order of legs, with
/// their names; and the port before each port, and the class at each, in whichever leg it is.
pub fn routes_are_worked()
    ensures { RoutesAreWorked }
{}

/// A branch begins at a hop of an earlier leg, at the talker too but not at the first hop of a branch, and has a port;
/// branches that break one of these rules alone are none.
pub fn branches_begin_earlier()
    ensures { BranchesBeginEarlier }
{}

/// Legs that come to a node in two ways are no tree: where a branch comes to a bridge of the trunk again, where two
/// branches meet, where a branch goes to a listener again or back to the talker, and where one begins at a station. Nor
/// are those with a branch that does not go on from where it begins.
pub fn other_ways_are_refused()
    ensures { OtherWaysAreRefused }
{}

/// The walks that are computed from a talker to four listeners are the routes of a trunk and branches, and so are those
/// from a bridge to two stations and a bridge; where a listener is on the way to another one, they are not.
pub fn least_walks_are_worked()
    ensures { LeastWalksAreWorked }
{}

/// A tree may have routes that are no least walks.
pub fn longer_ways_are_trees()
    ensures { LongerWaysAreTrees }
{}
