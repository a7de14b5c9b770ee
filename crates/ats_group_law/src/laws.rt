//! What is proved of the definitions, for all lists of frames and of offers.

ghost use Rattle.ats_group_law.specs.Laws.{ConformingByWindows, EligibilityIsLeast, LateTimeIsLeast, LateTimeIsSoon};
ghost use Rattle.ats_group_law.specs.Laws.{GroupTimeIsLast, OutputConforms, OutputConformsByWindows, OutputAscends};
ghost use Rattle.ats_group_law.specs.Laws.{FoldIsFullFold};
ghost use Rattle.ats_group_law.specs.GroupsLaws.{GroupsOutputConforms, GroupsOutputAscends, GroupsEligibilityIsLeast};
ghost use Rattle.ats_group_law.specs.Regulator.{AtsIsRegulator};
ghost use Rattle.ats_group_law.specs.Renaming.{VerdictsAreKept};
ghost use Rattle.ats_group_law.specs.Shaping.{ShapingIsFree};

/// Frames conform to a token bucket from each place to each later one exactly where their times do not descend and no
/// window of time holds more bits than the rate gives in it and the burst.
pub fn conforms_by_windows()
    ensures { ConformingByWindows }
{}

/// What an eligibility time means, without a bucket: where a group accepts a frame, its eligibility
/// time is the least whole picosecond, not before its arrival or the group eligibility time, with
/// which all that the group accepted of the member so far, followed by this frame, conforms to the
/// member's rate and burst. What was offered before is arbitrary.
pub fn eligibility_is_least()
    ensures { EligibilityIsLeast }
{}

/// The time that the verdict on a late frame tells is also the least, not before its arrival or the
/// group eligibility time, with which all that the group accepted of the member, followed by this
/// frame, conforms.
pub fn late_time_is_least()
    ensures { LateTimeIsLeast }
{}

/// That time is no later than the frame's arrival or, where this is later, than the time in which the rate gives the
/// frame's bits, counted from the group eligibility time. So no verdict tells a time far behind what a group accepted.
pub fn late_time_is_soon()
    ensures { LateTimeIsSoon }
{}

/// The group eligibility time is that of the frame that the group accepted last, or 0.
pub fn group_time_is_last()
    ensures { GroupTimeIsLast }
{}

/// Whatever is offered to a group, by any of its members and at any times, what it accepts of a member conforms to that
/// member's rate and burst. Nothing is asked of the other members.
pub fn output_conforms()
    ensures { OutputConforms }
{}

/// Whatever is offered to a group, what it accepts of a member keeps each window of time to what
/// its rate gives and its burst.
pub fn output_conforms_by_windows()
    ensures { OutputConformsByWindows }
{}

/// Whatever is offered, the eligibility times of all frames that a group accepts do not descend.
pub fn output_ascends()
    ensures { OutputAscends }
{}

/// The verdicts of a group and its state also come from bucket-full times, which are never
/// negative. Proofs count so; no meaning rests on it.
pub fn fold_is_full_fold()
    ensures { FoldIsFullFold }
{}

/// Whatever frames the members of `ats_group`'s groups offer, in any order and at any times, what its group accepts of
/// each member conforms to its rate and burst.
pub fn groups_output_conforms()
    ensures { GroupsOutputConforms }
{}

/// The eligibility times of all frames that each of the groups accepts do not descend.
pub fn groups_output_ascends()
    ensures { GroupsOutputAscends }
{}

/// Where one of the groups accepts a frame, its eligibility time is the least, not before its arrival or the group
/// eligibility time, with which all that the group accepted of the member, followed by this frame, conforms.
pub fn groups_eligibility_is_least()
    ensures { GroupsEligibilityIsLeast }
{}

/// A group adds nothing to the greatest delay: where frames come to it that conformed at the hop
/// before, in the order in which they were eligible there and within a bound of that time, each is
/// eligible again within the same bound.
pub fn shaping_is_free()
    ensures { ShapingIsFree }
{}

/// The schedulers and groups of Asynchronous Traffic Shaping regulate by token buckets, whatever
/// their members declare: they let frames through at declared sizes only, what they let through of
/// a member conforms, and shaping is free. And token buckets are a rule: frames conform also where
/// some are left out or equal times change places.
pub fn ats_is_regulator()
    ensures { AtsIsRegulator }
{}

/// Nothing of a group depends on its members' numbers: where each gets another one of its own, under which the same is
/// declared, the verdicts stay, the group eligibility time, and each member's bucket under its number.
pub fn verdicts_are_kept()
    ensures { VerdictsAreKept }
{}
