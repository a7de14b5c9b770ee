//! What just counts, and what just does not.

ghost use Rattle.ats_edge_examples.specs.Captured.{SenderIsCaptured};
ghost use Rattle.ats_edge_examples.specs.EachEntry.{EachEntryCounts};
ghost use Rattle.ats_edge_examples.specs.FaultOrders.{FaultsAreInOrder};
ghost use Rattle.ats_edge_examples.specs.FileWords.{FilesAreMeant};
ghost use Rattle.ats_edge_examples.specs.Metered.{FramesAreNumbered};
ghost use Rattle.ats_edge_examples.specs.Outside.{OutsideIsAtEdges};
ghost use Rattle.ats_edge_examples.specs.OutsideWords.{OutsideIsMeant};
ghost use Rattle.ats_edge_examples.specs.Refused.{RefusalsAreTold};
ghost use Rattle.ats_edge_examples.specs.Requests.{LinesAreJudgedByThemselves};
ghost use Rattle.ats_edge_examples.specs.Routes.{RoutesAreMeant};
ghost use Rattle.ats_edge_examples.specs.Runs.{RunsAreAtEdges};
ghost use Rattle.ats_edge_examples.specs.Shapes.{ShapesAreAtEdges};
ghost use Rattle.ats_edge_examples.specs.ShortRoutes.{RoutesAreAtEdges};
ghost use Rattle.ats_edge_examples.specs.Texts.{TextsAreAtEdges};

/// How lines and fields of certificates and schedules are cut; shape files with a residence and a time of 0, and with a
/// byte order mark; numbers of 18 and of 19 digits in request files; and classes along a path as they are told.
pub fn texts_are_at_edges()
    ensures { TextsAreAtEdges }
{}

/// Which frames a talker answers for, when a frame arrives in time, and in which order a run has its releases; how the
/// last of several verdicts counts, and that a frame of a size that is not allowed moves nothing; a path of one port;
/// and the last release that may be made.
pub fn runs_are_at_edges()
    ensures { RunsAreAtEdges }
{}

/// In which order files are read, and which bytes of a text a sink takes.
pub fn outside_is_at_edges()
    ensures { OutsideIsAtEdges }
{}

/// The capture of a port that sent a frame of sender 1 before one of sender 0: it tells of senders, and not of frames.
pub fn sender_is_captured()
    ensures { SenderIsCaptured }
{}

/// Which tables have short routes between stations: those of a stream or a flow over 16 links, and not over 17; by ends
/// or by paths, for each port, and where a route has no ports; and not where one begins or ends at a bridge.
pub fn routes_are_at_edges()
    ensures { RoutesAreAtEdges }
{}

/// A law: legs have some routes where they are those of branches, make a tree, and lead along just these, be a route
/// the least walk between its ends or not; and formats 1 and 2 may declare routes between stations, and format 3 any.
pub fn routes_are_meant()
    ensures { RoutesAreMeant }
{}

/// A stream or a flow that breaks a rule, and whose route is over the limit too, has the fault of the rule.
pub fn faults_are_in_order()
    ensures { FaultsAreInOrder }
{}

/// A law: a line that asks for a stream is judged by the rules of each stream and the limit on its route alone; that
/// its rate or its burst is over the limits of a scheduler by the clocks on its way is no fault of the line.
pub fn lines_are_judged_by_themselves()
    ensures { LinesAreJudgedByThemselves }
{}

/// Which network is that of a file's tables: one in which a number of a stream or a flow, a class, a route, a node or a
/// link is another is not, nor one with a stream or a flow more or less; and which path is the one of two ends.
pub fn each_entry_counts()
    ensures { EachEntryCounts }
{}

/// The number that is told of rows that are refused: a load with that of the higher class, a bound at the rate of its
/// port and by the wait of its row, sums of other classes, and a need by the waits of the rows.
pub fn refusals_are_told()
    ensures { RefusalsAreTold }
{}

/// Since when the residence of a frame counts with a length-rate-quotient regulator, how the numbers of a stream line
/// are written, and that the first frame counts in the totals as all others do.
pub fn shapes_are_at_edges()
    ensures { ShapesAreAtEdges }
{}

/// A law: a meter of `conform` takes the frames of its sender, each by its number among all releases.
pub fn frames_are_numbered()
    ensures { FramesAreNumbered }
{}

/// A law: what is said of files, sinks, counts of faults and reads, written out both ways.
pub fn outside_is_meant()
    ensures { OutsideIsMeant }
{}

/// A law: what records, nodes, links and the senders for each port are, and what the laws on network files ask of texts
/// and documents, written out for all of them.
pub fn files_are_meant()
    ensures { FilesAreMeant }
{}
