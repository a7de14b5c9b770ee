//! Laws of the definitions.

ghost use Rattle.ats_network_file.specs.Laws.{PassesValidPaths, EachHasOneListener, EachIsNetwork};
ghost use Rattle.ats_network_file.specs.Laws.{EachJoinsStations, LegsAreThoseOfRoutes, MostPortsAreOfFormat};

/// A law: the test of a path passes exactly the valid paths.
pub fn passes_valid_paths()
    ensures { PassesValidPaths }
{}

/// A law: what a text declares is a network.
pub fn each_is_network()
    ensures { EachIsNetwork }
{}

/// A law: what a text of format 1 or 2 declares has one listener for each stream.
pub fn each_has_one_listener()
    ensures { EachHasOneListener }
{}

/// A law: each route of a stream or flow that a text of format 1 or 2 declares leads from a station to a station.
pub fn each_joins_stations()
    ensures { EachJoinsStations }
{}

/// A law: the network that a text of format 1 or 2 declares may have routes of 16 ports, that of format 3 of 64.
pub fn most_ports_are_of_format()
    ensures { MostPortsAreOfFormat }
{}

/// A law: the legs that are found for some routes are those of the one tree that has just these routes; none are found
/// where no tree has them.
pub fn legs_are_those_of_routes()
    ensures { LegsAreThoseOfRoutes }
{}
