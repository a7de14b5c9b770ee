//! Which of several faults is named first, on closed examples.

ghost use Rattle.ats_first_examples.specs.Arrays.{ArraysAreJudged};
ghost use Rattle.ats_first_examples.specs.Asked.{RequestsAreFirst};
ghost use Rattle.ats_first_examples.specs.Captures.{CapturesAreFirst};
ghost use Rattle.ats_first_examples.specs.Due.{DueKeysAreMeant};
ghost use Rattle.ats_first_examples.specs.Entries.{TablesAreRead};
ghost use Rattle.ats_first_examples.specs.Kinds.{KindsAreRead};
ghost use Rattle.ats_first_examples.specs.Ports.{PortsAreFirst};
ghost use Rattle.ats_first_examples.specs.Ranges.{RangesAreRead};
ghost use Rattle.ats_first_examples.specs.Records.{RecordsAreFirst};
ghost use Rattle.ats_first_examples.specs.Rules.{RulesAreFirst};
ghost use Rattle.ats_first_examples.specs.Senders.{SendersAreFirst};
ghost use Rattle.ats_first_examples.specs.Several.{SeveralAreRead};
ghost use Rattle.ats_first_examples.specs.Shapes.{ShapesAreFirst};
ghost use Rattle.ats_first_examples.specs.Tables.{TablesAreFirst};
ghost use Rattle.ats_first_examples.specs.Topologies.{TopologyFaultsAreFirst};
ghost use Rattle.ats_first_examples.specs.Trees.{TreesAreFound};
ghost use Rattle.ats_first_examples.specs.Written.{WordsAreWritten};

/// Nodes and links: of the eight kinds of fault the first in their order, wherever its entry stands, and of one kind
/// the first entry.
pub fn topology_faults_are_first()
    ensures { TopologyFaultsAreFirst }
{}

/// The rules that a stream or a flow breaks, and why a network takes no further one.
pub fn rules_are_first()
    ensures { RulesAreFirst }
{}

/// A table of a network file: a key that is missing, then one that is unknown, then one with a value of another kind,
/// each the first in the order of the keys.
pub fn tables_are_first()
    ensures { TablesAreFirst }
{}

/// The values that a table may have: numbers of each range, addresses, lists, and keys that may be absent.
pub fn kinds_are_read()
    ensures { KindsAreRead }
{}

/// The routes of a stream of format 3, which may have several listeners: by paths and by an array of ends, and of their
/// keys the first that is missing or wrong.
pub fn several_are_read()
    ensures { SeveralAreRead }
{}

/// The top of a network file and its arrays in their order, and the most tables that each may have.
pub fn arrays_are_judged()
    ensures { ArraysAreJudged }
{}

/// The streams and flows of a network file: of one its path, its rules, its name and its identity, and of all the
/// first.
pub fn senders_are_first()
    ensures { SendersAreFirst }
{}

/// The routes of a stream with several listeners: the legs of the tree that has them, or none where one of them is no
/// path, a listener is there twice, or there is another talker.
pub fn trees_are_found()
    ensures { TreesAreFound }
{}

/// Streams and flows for each port: the keys of their tables, the top and the arrays of a file of format 3, and its
/// senders.
pub fn ports_are_first()
    ensures { PortsAreFirst }
{}

/// Records of certificates and schedules.
pub fn records_are_first()
    ensures { RecordsAreFirst }
{}

/// Lines of shape files.
pub fn shapes_are_first()
    ensures { ShapesAreFirst }
{}

/// Lines of request files, and the most that may be asked.
pub fn requests_are_first()
    ensures { RequestsAreFirst }
{}

/// Bytes of captures, and the releases that their records make.
pub fn captures_are_first()
    ensures { CapturesAreFirst }
{}

/// Which numbers of a network file are of 32 bits, and which take more.
pub fn ranges_are_read()
    ensures { RangesAreRead }
{}

/// Which keys have to stand in a table, key by key: some always and some never, a path or a class unless others stand
/// in its place, and of two that go together each where the other one does.
pub fn due_keys_are_meant()
    ensures { DueKeysAreMeant }
{}

/// A law: of all texts, what a network file declares stands in its tables, one by one and in their order, each name and
/// number with its own key; where a deadline or a number of a clock is left out, it is a second, or 0.
pub fn tables_are_read()
    ensures { TablesAreRead }
{}

/// A law: the words by which a network file is read, written out for all values, keys and tables.
pub fn words_are_written()
    ensures { WordsAreWritten }
{}
