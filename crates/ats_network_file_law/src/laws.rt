//! What is proved of the definitions themselves.

ghost use Rattle.ats_network_file_law.specs.Accepted.{SendersAreAccepted, TopologiesAreAccepted};
ghost use Rattle.ats_network_file_law.specs.EachPort.{EachPortHasItsSender};
ghost use Rattle.ats_network_file_law.specs.Ends.{EndsAreMeant, PathsAreMeant};
ghost use Rattle.ats_network_file_law.specs.Entries.{EachEntryStands};
ghost use Rattle.ats_network_file_law.specs.FormFaults.{FormFaultIsTheFirst};
ghost use Rattle.ats_network_file_law.specs.FormatNumber.{EachHasItsNumber};
ghost use Rattle.ats_network_file_law.specs.Formats.{FormatThreeIsFormatTwo};
ghost use Rattle.ats_network_file_law.specs.Limits.{LimitsAreMeant};
ghost use Rattle.ats_network_file_law.specs.LinkLocal.{TablesAreForEachPort};
ghost use Rattle.ats_network_file_law.specs.Named.{EachNodeIsNamed, EachSenderIsNamed};
ghost use Rattle.ats_network_file_law.specs.OneListener.{OneListenerIsByPath};
ghost use Rattle.ats_network_file_law.specs.Passed.{PassOn, TablesAreMeant};
ghost use Rattle.ats_network_file_law.specs.SenderFaults.{SenderFaultIsTheFirst};
ghost use Rattle.ats_network_file_law.specs.Several.{EndsMakeATree, StationsMakeATree};
ghost use Rattle.ats_network_file_law.specs.ShortRoutes.{FormatOneIsFormatTwo, ShortRoutesAreOfBoth};
ghost use Rattle.ats_network_file_law.specs.TopologyFaults.{TopologyFaultIsTheFirst};

/// A law: in the network that a text declares, each station, bridge and link of the text's tables stands at its
/// place, and so does each stream and each flow, and behind them those of the tables for each port, with its name, its
/// numbers, its routes, and a class for each of its ports; and nothing else stands there.
pub fn each_entry_stands()
    ensures { EachEntryStands }
{}

/// A law: each station and each bridge of the network that a text declares has a proper name, of 1 to 32
/// letters, digits, `_` or `-`.
pub fn each_node_is_named()
    ensures { EachNodeIsNamed }
{}

/// A law: each stream and each flow of the network that a text declares has a proper name, of 1 to 32
/// letters, digits, `_` or `-`.
pub fn each_sender_is_named()
    ensures { EachSenderIsNamed }
{}

/// A law: a text gives a fault of form exactly where it is its first: it is no TOML, or of the top table
/// and then of each array, how many tables it has and each of them, one has this fault and none before it.
pub fn form_fault_is_the_first()
    ensures { FormFaultIsTheFirst }
{}

/// A law: nodes and links give a fault exactly where it is their first, in the order of kinds and then
/// of entries; they give none exactly where they have none.
pub fn topology_fault_is_the_first()
    ensures { TopologyFaultIsTheFirst }
{}

/// A law: nodes and links have no fault exactly where they make a topology and no two links join the same nodes: what
/// each topology keeps is all that is asked of them beside.
pub fn topologies_are_accepted()
    ensures { TopologiesAreAccepted }
{}

/// A law: a stream or a flow that a network may have as its last has no fault there, and breaks no rule; what each
/// network keeps is all that is asked of it beside its route.
pub fn senders_are_accepted()
    ensures { SendersAreAccepted }
{}

/// A law: a document whose nodes and links have no fault gives a fault exactly where it is the first of
/// its streams, those for each port behind the others, and then of its flows: an entry's routes, its rules, its name,
/// its identity, and last the number of those before it, or of the ports of streams. It names the entry by its table
/// and its number there, counted from 1.
pub fn sender_fault_is_the_first()
    ensures { SenderFaultIsTheFirst }
{}

/// A law: a stream that declares a rate is over the limits of a scheduler by the clocks on its way exactly where not
/// at each of its ports its rates and bursts are within them: what comes of it there along its routes, and what its
/// scheduler has behind the port.
pub fn limits_are_meant()
    ensures { LimitsAreMeant }
{}

/// A law: what a text declares is what its tables do; a fault of form, where it has no tables, is its
/// fault, and so is that of the tables' nodes and links.
pub fn faults_are_passed_on()
    ensures { PassOn }
{}

/// A law: a table of a station, bridge or link stands for a node or link with its name and numbers; and
/// on closed lists, the classes of a stream's table go along its path, and a single one is that of each port.
pub fn tables_are_meant()
    ensures { TablesAreMeant }
{}

/// A law: where each stream of a document has one listener, in whichever way its route is written, the document
/// declares the network of that one in which each stream names the nodes along its path.
pub fn one_listener_is_by_path()
    ensures { OneListenerIsByPath }
{}

/// A law: the ports of a route by its ends are those of the walk of fewest ports between the nodes with these names,
/// however many these are; where one of them names no node, or no walk leads there, it has none.
pub fn ends_are_meant()
    ensures { EndsAreMeant }
{}

/// A law: the ports of a route by the nodes along it are those of the path through these nodes, whichever valid path it
/// is, and not only where it is the walk of fewest ports.
pub fn paths_are_meant()
    ensures { PathsAreMeant }
{}

/// A law: the routes from one node, as they are found by the ends alone, are those of a tree where each of them is a
/// valid path, exactly where no listener is on the way to another one.
pub fn ends_make_a_tree()
    ensures { EndsMakeATree }
{}

/// A law: so they are where the listeners are different stations: of a stream to stations no route is refused but for
/// itself.
pub fn stations_make_a_tree()
    ensures { StationsMakeATree }
{}

/// A law: a document that a text declares has the format whose number, 1, 2 or 3, stands with `format` in the text.
pub fn each_has_its_number()
    ensures { EachHasItsNumber }
{}

/// A law: the tables of a text of format 3 which has none for each port, and whose streams and bridges say nothing that
/// only format 3 can, declare what they do with the number 2 in the place of its format.
pub fn format_three_is_format_two()
    ensures { FormatThreeIsFormatTwo }
{}

/// A law: by the same tables a document declares in format 1 the network that it declares in format 2, or has the same
/// first fault.
pub fn format_one_is_format_two()
    ensures { FormatOneIsFormatTwo }
{}

/// A law: a document whose routes have at most 16 ports and lead from stations to stations declares in format 3 the
/// network that it declares in format 2, but for the greatest number of ports of a route, or has the same first fault.
pub fn short_routes_are_of_both()
    ensures { ShortRoutesAreOfBoth }
{}

/// A law: a document with tables for each port declares the networks that it declares with a `stream` or a `flow` table
/// for each port of its links in the place of each of these, behind the others; so do texts of these documents. Each
/// such stream or flow goes along its port alone.
pub fn tables_are_for_each_port()
    ensures { TablesAreForEachPort }
{}

/// A law: behind the streams of a document its network has for each table for each port, and for each port, one stream
/// with the name of the table, `-` and the port's number, which goes along this port alone, with the numbers of the
/// table and its class; and no other. So it has flows.
pub fn each_port_has_its_sender()
    ensures { EachPortHasItsSender }
{}
