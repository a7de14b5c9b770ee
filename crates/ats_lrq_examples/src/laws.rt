//! What the laws of length-rate-quotient regulators say of a worked network, and what they rest on.

ghost use Rattle.ats_lrq_examples.specs.Alone.{OthersRegulate};
ghost use Rattle.ats_lrq_examples.specs.Groups.{GroupsAreMet, ShapingIsMet};
ghost use Rattle.ats_lrq_examples.specs.Met.{FlowsAreFree, LawIsMet, RegulatorCounts, SpacingCounts};
ghost use Rattle.ats_lrq_examples.specs.Narrowed.{StreamsKeepOneFrame};

/// What the law of a certificate with narrowed bursts asks can be met: here are two frames over one bridge, which are
/// just so far apart as the rate wants, and of which each arrives exactly when the sum of its bounds is over.
pub fn law_is_met()
    ensures { LawIsMet }
{}

/// Spacing counts: where the second frame is released 1 ps sooner, the talker keeps its bucket and not its spacing, and
/// the frame is 1 ps late. So the bounds are not sound for all talkers that keep their buckets.
pub fn spacing_counts()
    ensures { SpacingCounts }
{}

/// The regulator counts: as the network is declared the certificate does not hold, and behind the schedulers of
/// Asynchronous Traffic Shaping, which let both frames of a burst through, its bounds are not sound.
pub fn regulator_counts()
    ensures { RegulatorCounts }
{}

/// Spacing is asked of streams alone: a station keeps it whose flow sends two frames at once.
pub fn flows_are_free()
    ensures { FlowsAreFree }
{}

/// With narrowed bursts a stream keeps one frame, and not one for each of its listeners.
pub fn streams_keep_one_frame()
    ensures { StreamsKeepOneFrame }
{}

/// What the laws of groups ask can be met, by frames that are too long, late or come in any order too.
pub fn groups_are_met()
    ensures { GroupsAreMet }
{}

/// What the law of free shaping asks can be met: here are frames of two members of one group, each of which is eligible
/// again within the bound, and two of them just then.
pub fn shaping_is_met()
    ensures { ShapingIsMet }
{}

/// Other regulators and rules are such too: a shaper for each member, which waits for no other, regulates by the rule
/// of a token bucket; and a rule may name a time.
pub fn others_regulate()
    ensures { OthersRegulate }
{}
