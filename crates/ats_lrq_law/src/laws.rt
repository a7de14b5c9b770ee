//! What is proved of the definitions, for all lists of frames and of offers, networks and runs.

ghost use Rattle.ats_lrq.specs.Judge.{spacing_rule};
ghost use Rattle.ats_lrq_law.specs.Laws.{LrqOutputConforms, GroupsOutputConforms, LrqIsRegulator};
ghost use Rattle.ats_lrq_law.specs.Laws.{LrqOutputAscends, GroupsOutputAscends};
ghost use Rattle.ats_lrq_law.specs.Narrowed.{NarrowedIsNetwork, RunsAreKept, TalkersAreKept, SoundBySpacing};
ghost use Rattle.ats_lrq_law.specs.Narrowed.{NarrowedIsSound};

use ats_soundness_law::laws::TalkerRule;

/// The rule of a talker that keeps its spacing, for laws that hold for any rule.
pub struct Spacing;

impl TalkerRule for Spacing {
    ghost kept = { spacing_rule };
}

/// Whatever is offered to a group, by any of its members and at any times, what it accepts of a member conforms to that
/// member's rate and the wire bits of its longest frame. Nothing is asked of the other members.
pub fn lrq_output_conforms()
    ensures { LrqOutputConforms }
{}

/// Whatever frames the members of `LrqGroups` offer, in any order and at any times, what its group accepts of each
/// member conforms so.
pub fn groups_output_conforms()
    ensures { GroupsOutputConforms }
{}

/// Whatever is offered, the eligibility times of all frames that a group accepts do not descend.
pub fn lrq_output_ascends()
    ensures { LrqOutputAscends }
{}

/// The eligibility times of all frames that each group of `LrqGroups` accepts do not descend.
pub fn groups_output_ascends()
    ensures { GroupsOutputAscends }
{}

/// Length-rate-quotient regulators regulate by spacing, whatever their members declare: they let frames through at
/// declared sizes only, what they let through of a member is spaced, and shaping is free. And spacing is a rule: frames
/// keep it also where some are left out, and conform to any burst that covers the longest.
pub fn lrq_is_regulator()
    ensures { LrqIsRegulator }
{}

/// A network with narrowed bursts is a network.
pub fn narrowed_is_network()
    ensures { NarrowedIsNetwork }
{}

/// The legal runs are those with narrowed bursts, since no such regulator reads a burst.
pub fn runs_are_kept()
    ensures { RunsAreKept }
{}

/// Nor does the rule of spaced talkers.
pub fn talkers_are_kept()
    ensures { TalkersAreKept }
{}

/// Ten rules make bounds sound for length-rate-quotient regulators and spaced talkers.
pub fn sound_by_spacing()
    ensures { SoundBySpacing }
{}

/// A certificate that holds with narrowed bursts is sound for these regulators and spaced talkers, in each legal run of
/// the network as it is declared.
pub fn narrowed_is_sound()
    ensures { NarrowedIsSound }
{}
