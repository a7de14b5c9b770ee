//! What is proved of clocks, of frames, and of groups that go by clocks, for all lists and numbers.

ghost use Rattle.ats_clock_law.specs.Retiming.{RetimedConform, SentByClockConform, ShownConform};
ghost use Rattle.ats_clock_law.specs.TrueTime.{EachTimeIsShown, EligibleIsJustShown, OrderIsKept, TrueEligibilityIs};
ghost use Rattle.ats_clock_law.specs.TrueTime.{TrueOutputConforms, TrueVerdictsAre};
ghost use Rattle.ats_clock_law.specs.Counted.{CountedKeepBucket};
ghost use Rattle.ats_clock_law.specs.Crossing.{DelayedByNothing, LeaveInOrder, PutBackComeInOrder};
ghost use Rattle.ats_clock_law.specs.Crossing.{ShapingIsFreeByClocks};
ghost use Rattle.ats_clock_law.specs.Ideal.{IdealIsConstantApart, IdealVerdictsAreTrue, ShiftIsNotSeen};
ghost use Rattle.ats_clock_law.specs.Examples.{AheadOfTime, BothAreCounted, NotAsked, OutputIsFaster};
ghost use Rattle.ats_clock_law.specs.Examples.{OutputIsCloser, OvertakenInATick, SlowClock, StepIsNeeded};

/// Frames that conform to a rate and a burst at one time of each conform at another one to a rate and a burst that are
/// enough for how much less the second times may gain.
pub fn retimed_conform()
    ensures { RetimedConform }
{}

/// What a clock makes of a rate and a burst is enough. Frames that conform in true time conform by the clock to what
/// its scheduler is to have, and frames that a node sends by its clock conform in true time to the clock's output.
pub fn frames_conform_by_clock()
    ensures shown { ShownConform }
    ensures sent { SentByClockConform }
{}

/// A frame has a true eligibility time, by each clock that keeps a deviation below a million parts in a million. So
/// the verdicts of each group that goes by such a clock are some in true time.
pub fn true_eligibility_is()
    ensures found { TrueEligibilityIs }
    ensures shown { EachTimeIsShown }
    ensures verdicts { TrueVerdictsAre }
{}

/// A frame that is eligible on its arrival was told no less than the clock shows then. For any other the clock showed
/// less one picosecond before its true eligibility time.
pub fn eligible_is_just_shown()
    ensures { EligibleIsJustShown }
{}

/// Of two frames that were told times by one clock, the one with the earlier time is eligible no later.
pub fn order_is_kept()
    ensures { OrderIsKept }
{}

/// Whatever is offered to a group that goes by a clock, what it lets through of a member conforms in true time to what
/// that clock makes of the member's rate and burst.
pub fn true_output_conforms()
    ensures { TrueOutputConforms }
{}

/// Where a port goes by its node's clock in choosing among frames of one class that are eligible, they leave in the
/// order of the times that they were told.
pub fn class_leaves_in_order()
    ensures { LeaveInOrder }
{}

/// What may go before a frame at a port that chooses by its clock is of each sender no more than the clock's output
/// gives from when the port began to send until that frame is eligible.
pub fn counted_keep_bucket()
    ensures { CountedKeepBucket }
{}

/// Frames that come through a port, each put back to the least time at which it or one behind it was eligible, were
/// eligible in the order in which they come, arrive within the bound all the same, and conform in true time to what the
/// clock of the hop before makes of each member's rate and burst.
pub fn put_back_come_in_order()
    ensures { PutBackComeInOrder }
{}

/// Where frames come in order and conform in true time, and each scheduler has what the bridge's clock makes of that,
/// they come by this clock as if they were delayed by nothing from the time when the bound of their way has passed.
pub fn delayed_by_nothing()
    ensures { DelayedByNothing }
{}

/// A group adds nothing to the greatest delay where each bridge goes by its own clock: frames of one class that come
/// through a port are eligible again within the bound of that port, in true time.
pub fn shaping_is_free_by_clocks()
    ensures { ShapingIsFreeByClocks }
{}

/// A clock that neither deviates nor steps differs from true time by a constant, and a group does not see a constant.
/// The verdicts in true time of a group that goes by such a clock are those of true arrivals.
pub fn ideal_verdicts_are_true()
    ensures constant { IdealIsConstantApart }
    ensures shift { ShiftIsNotSeen }
    ensures verdicts { IdealVerdictsAreTrue }
{}

/// The laws at closed numbers. A clock that ticks, whose step a burst has to have, from true time to this clock and
/// back, and two frames of which one overtakes the other within a tick. A fast clock, whose scheduler lets through more
/// in true time than its own rate. A slow clock: each frame is in time where the scheduler has the rate that the clock
/// asks, and one is not where it has the declared rate. And a clock that is ahead of true time by a constant.
pub fn worked_rows()
    ensures step_is_needed { StepIsNeeded }
    ensures output_is_closer { OutputIsCloser }
    ensures output_is_faster { OutputIsFaster }
    ensures both_are_counted { BothAreCounted }
    ensures slow_clock { SlowClock }
    ensures not_asked { NotAsked }
    ensures overtaken { OvertakenInATick }
    ensures ahead { AheadOfTime }
{}
