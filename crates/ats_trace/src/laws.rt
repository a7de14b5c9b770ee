//! What is proved of the definition of a legal run.

ghost use Rattle.ats_trace.specs.ExactLinks.{LinksAreExact};
ghost use Rattle.ats_trace.specs.OneListener.{NoCopyNoBranch, OneListenerHasOneLeg};
ghost use Rattle.ats_trace.specs.OneVerdict.{OneVerdict};
ghost use Rattle.ats_trace.specs.Parts.{LegalIsEachPart};

/// A run is one in which all nodes read true time exactly where it keeps each of the parts that are listed.
pub fn legal_is_each_part()
    ensures { LegalIsEachPart }
{}

/// Where each port has one latency, as where each bridge takes one time to process a frame, a run is
/// legal exactly where each frame arrives behind each port that sends it when its transmission has
/// ended and the port's latency is over.
pub fn links_are_exact()
    ensures { LinksAreExact }
{}

/// Where each frame makes a journey, as in each legal run, of the ports of a stream that leave one node, either all
/// have a record of a frame or none has, with one arrival and one verdict: a bridge judges a frame once, for all ports
/// on which the stream goes on. And a frame is sent at most once at each port, however many listeners are behind it.
pub fn one_verdict()
    ensures { OneVerdict }
{}

/// Where a frame's stream has one listener, or it is a flow's, its journey is one over the ports of its sender, without
/// copies, what is projected from it goes along these, and they are its one route.
pub fn one_listener_has_one_leg()
    ensures { OneListenerHasOneLeg }
{}

/// A journey without copies is one of a stream with one listener, or of a flow.
pub fn no_copy_no_branch()
    ensures { NoCopyNoBranch }
{}
