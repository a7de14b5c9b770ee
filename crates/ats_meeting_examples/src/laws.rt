//! Which of several lawful runs, bursts and releases is meant, where frames of several senders meet.

ghost use Rattle.ats_meeting_examples.specs.Bursts.{EachFlowIsInTheBurst};
ghost use Rattle.ats_meeting_examples.specs.Draws.{DrawsAreByFrame};
ghost use Rattle.ats_meeting_examples.specs.Flows.{FlowsSharePorts};
ghost use Rattle.ats_meeting_examples.specs.Links.{LinksAreShared};
ghost use Rattle.ats_meeting_examples.specs.Made.{ReleasesAreOfEachStream};

/// A port sends frames of two flows in the order in which they became eligible, and by an order those of a tie by its
/// key, at a station and at a bridge, whichever flow is which.
pub fn flows_share_ports()
    ensures { FlowsSharePorts }
{}

/// All frames of a link keep their order, of whichever senders and classes.
pub fn links_are_shared()
    ensures { LinksAreShared }
{}

/// By `mixed:N` a frame draws its wait by its own number, whichever its sender, at each port anew, and by `late` it
/// waits for all of each port's spread; and a frame takes longer on a slow link and less on a fast one.
pub fn draws_are_by_frame()
    ensures { DrawsAreByFrame }
{}

/// Each flow of a port has a frame in a burst there.
pub fn each_flow_is_in_the_burst()
    ensures { EachFlowIsInTheBurst }
{}

/// Streams alone take turns in what is made; octets are drawn from the least on, and each stream has a bucket of its
/// own with all of its burst.
pub fn releases_are_of_each_stream()
    ensures { ReleasesAreOfEachStream }
{}
