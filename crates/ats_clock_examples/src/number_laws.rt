//! What clocks make of rates, bursts, needs, buffers and limits, each at an edge where a number that is reckoned in
//! another way is another.

ghost use Rattle.ats_clock_examples.specs.ClockEdges.{ClocksAreAtTheirEdges};
ghost use Rattle.ats_clock_examples.specs.IdealClocks.{IdealClocksAreShown};
ghost use Rattle.ats_clock_examples.specs.Limits.{LimitsAreAtEachHop};
ghost use Rattle.ats_clock_examples.specs.Narrowed.{NarrowedKeepsClocks};
ghost use Rattle.ats_clock_examples.specs.Needs.{NeedsAreRounded};
ghost use Rattle.ats_clock_examples.specs.Rates.{RatesAreRounded};
ghost use Rattle.ats_clock_examples.specs.Shares.{SharesAreOfThePortBefore};
ghost use Rattle.ats_clock_examples.specs.Trees.{BranchesHaveOwnClocks};

/// The burst of a scheduler grows by what its own rounded rate gives in a step, and that of its output by what this
/// rate gives in the step and in a picosecond's deviation.
pub fn rates_are_rounded()
    ensures { RatesAreRounded }
{}

/// A need of residence grows by the step and by the deviation of the need alone, rounded up.
pub fn needs_are_rounded()
    ensures { NeedsAreRounded }
{}

/// At a port of a tree what comes of a stream goes by the clocks on the way there, in their order.
pub fn branches_have_own_clocks()
    ensures { BranchesHaveOwnClocks }
{}

/// A buffer goes by the rates and bursts that come to the port before.
pub fn shares_are_of_the_port_before()
    ensures { SharesAreOfThePortBefore }
{}

/// A stream is judged at each port of each branch by what comes there and by its scheduler behind it, and at its first
/// port by what its talker lets through.
pub fn limits_are_at_each_hop()
    ensures { LimitsAreAtEachHop }
{}

/// Which clocks keep a declared deviation and step: those that just do, and none that just do not.
pub fn clocks_are_at_their_edges()
    ensures { ClocksAreAtTheirEdges }
{}

/// Where `lrq bound` and `lrq check` narrow the bursts of a network, its clocks stay as they are.
pub fn narrowed_keeps_clocks()
    ensures { NarrowedKeepsClocks }
{}

/// Which networks have ideal clocks: those whose bridges declare neither a deviation nor a step, whatever else they
/// declare and whatever they send, and none with a bridge that declares one.
pub fn ideal_clocks_are_shown()
    ensures { IdealClocksAreShown }
{}
