//! Rates and bursts at the hops of a way.

ghost use Rattle.ats_examples.specs.SlowClocks.{SlowClocks};

/// Along two bridges with clocks of 100 parts in a million and 8 ns rates and bursts grow from hop to hop: those of a
/// stream from a station, and of one that a bridge sends. A flow has none.
pub fn slow_clocks()
    ensures { SlowClocks }
{}
