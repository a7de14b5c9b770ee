//! A run in which a bridge goes by a slow clock.

ghost use Rattle.ats_examples.specs.ClockedRuns.{DeclaredRateIsLate, SlowClockIsLegal};

/// Over a line whose bridge goes by a clock that is slow by 100 parts in a million, a frame that the bridge holds is
/// eligible later than in true time: the run is legal, and its frames are served, though it is no run by true time.
/// With the declared rate and burst its scheduler would hold this frame beyond its bound.
pub fn slow_clock_is_legal()
    ensures legal { SlowClockIsLegal }
    ensures declared { DeclaredRateIsLate }
{}
