//! What each of these words is, for all inputs, in the words below it.

ghost use Rattle.ats_plain_network_law.specs.Declarations.{DeclarationsAreKnown};
ghost use Rattle.ats_plain_network_law.specs.Entries.{EntriesAreKnown};
ghost use Rattle.ats_plain_network_law.specs.Groups.{GroupsAreKnown};
ghost use Rattle.ats_plain_network_law.specs.PortRule.{PortRuleIsKnown};
ghost use Rattle.ats_plain_network_law.specs.Regulators.{RegulatorsAreKnown};
ghost use Rattle.ats_plain_network_law.specs.Schedulers.{SchedulersAreKnown};
ghost use Rattle.ats_plain_network_law.specs.Ways.{WaysAreKnown};

/// What a token bucket asks of a talker, how a group begins, and what it keeps after a frame.
pub fn groups_are_known()
    ensures { GroupsAreKnown }
{}

/// What a length-rate-quotient regulator keeps of an accepted frame, and what a spaced talker keeps.
pub fn regulators_are_known()
    ensures { RegulatorsAreKnown }
{}

/// What a port does where each frame is told its eligibility time.
pub fn port_rule_is_known()
    ensures { PortRuleIsKnown }
{}

/// Which class a sender has at a port and by which ports its frames come there, which walk is
/// computed between two nodes, when a route joins stations, and who listens to a stream.
pub fn ways_are_known()
    ensures { WaysAreKnown }
{}

/// What a sender declares, when it is over the limits of a scheduler, what stands for no sender and
/// no stream, which stream a name is of, and what is left without it.
pub fn declarations_are_known()
    ensures { DeclarationsAreKnown }
{}

/// What a network is made of, which names and identities are taken in it, and why a stream or a
/// flow is not added.
pub fn entries_are_known()
    ensures { EntriesAreKnown }
{}

/// What a bridge is told of the scheduler of a stream behind a port, and in which order it is told.
pub fn schedulers_are_known()
    ensures { SchedulersAreKnown }
{}
