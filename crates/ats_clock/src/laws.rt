//! What is proved of the definitions and the constants themselves.

ghost use Rattle.std.specs.Prelude.{◌≡◌};
ghost use Rattle.ats_clock.specs.declared.clock.TheConstants.{MILLION, MAX_DEVIATION_PPM, MAX_STEP_PS};
ghost use Rattle.ats_clock.specs.Laws.{AreMonotone, FreeRunning, IdealChangesNothing, IdealKeepsEach, KeepsGreater};
ghost use Rattle.ats_clock.specs.Laws.{NeverFalls, NeverFallsAlong, Synchronised};

/// The constants that the definitions cite have these values.
pub fn constants_are()
    ensures million { MILLION ≡ 1000000 }
    ensures deviation { MAX_DEVIATION_PPM ≡ 1000 }
    ensures step { MAX_STEP_PS ≡ 10000000 }
{}

/// The ideal clock keeps each deviation and step: a bridge whose clock is better than declared keeps what it declares.
pub fn ideal_keeps_each()
    ensures ideal { IdealKeepsEach }
    ensures greater { KeepsGreater }
{}

/// Where the clock is ideal, rates and bursts stay what they are.
pub fn ideal_changes_nothing()
    ensures { IdealChangesNothing }
{}

/// From bridge to bridge no rate and no burst falls, nor along a path.
pub fn rates_never_fall()
    ensures bridge { NeverFalls }
    ensures path { NeverFallsAlong }
{}

/// A better clock, a smaller rate and a smaller burst ask for no more.
pub fn rates_are_monotone()
    ensures { AreMonotone }
{}

/// Two worked rows of 100 Mb/s and a frame of 1522 octets, by free-running clocks and by synchronised ones, behind one
/// bridge and behind fifteen.
pub fn worked_rows()
    ensures free_running { FreeRunning }
    ensures synchronised { Synchronised }
{}
