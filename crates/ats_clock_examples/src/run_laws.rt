//! Legal runs in which bridges go by clocks of their own.

ghost use Rattle.ats_clock_examples.specs.AheadRuns.{ClocksMayBeAhead};
ghost use Rattle.ats_clock_examples.specs.ChangingRates.{ClocksMayGain, RatesMayChange};
ghost use Rattle.ats_clock_examples.specs.ClockedCopies.{CopiesGoByClocks};
ghost use Rattle.ats_clock_examples.specs.Overtaken.{AllAreTold, ToldTimesDecide};
ghost use Rattle.ats_clock_examples.specs.StaysByClock.{StaysAreByClock};
ghost use Rattle.ats_clock_examples.specs.TalkingBridge.{TalkerGoesByItsClock, TalkerMayNotGoByTrueTime};
ghost use Rattle.ats_clock_examples.specs.TwoClocks.{BothGroupsHaveOneClock, EachDeclaresItsClock, EachHasItsClock};
ghost use Rattle.ats_clock_examples.specs.WithinTicks.{TicksKeepOrder};

/// Of two frames that wait in one class a bridge may send first the one that became eligible last, where its clock told
/// both the same time, and may not where the clock told that one a later time. So it is of frames of streams and of
/// flows, and of those that the bridge sends itself.
pub fn told_times_decide()
    ensures streams { ToldTimesDecide }
    ensures others { AllAreTold }
{}

/// Two bridges may go by different clocks in one run: where they declare the same, and where each keeps what it
/// declares itself and not what the other one does. All groups of one bridge go by its one clock.
pub fn each_has_its_clock()
    ensures alike { EachHasItsClock }
    ensures unlike { EachDeclaresItsClock }
    ensures one { BothGroupsHaveOneClock }
{}

/// A bridge sends its own frames by its clock: they may come closer to each other than they may by true time, as close
/// as the burst of the clock's output lets them, and their bounds hold. Within a tick it may not send what it may by
/// true time.
pub fn talker_goes_by_its_clock()
    ensures clock { TalkerGoesByItsClock }
    ensures true_time { TalkerMayNotGoByTrueTime }
{}

/// In a tree a bridge holds a frame by its clock for all ports on which the frame goes on, and the next one holds the
/// copy that comes to it by its own.
pub fn copies_go_by_clocks()
    ensures { CopiesGoByClocks }
{}

/// How long a frame may stay in a bridge counts by the bridge's clock: a frame whose stay is over its residence by the
/// clock is late, though it is not in true time; and the other way round.
pub fn stays_are_by_clock()
    ensures { StaysAreByClock }
{}

/// A bridge's clock may be ahead of true time, an ideal one too.
pub fn clocks_may_be_ahead()
    ensures { ClocksMayBeAhead }
{}

/// Within its deviation a bridge's clock may gain on true time, by more than a step, and its rate may change: there are
/// runs that are legal by such a clock, and by none that does not gain, or that goes at one rate.
pub fn rates_may_change()
    ensures gain { ClocksMayGain }
    ensures change { RatesMayChange }
{}

/// Frames that come to a bridge within a tick of its clock are judged in the order in which they come, though the clock
/// shows the same.
pub fn ticks_keep_order()
    ensures { TicksKeepOrder }
{}
