//! What is printed of rates, stays and least bursts where clocks are not ideal, and which rates a file may declare.

ghost use Rattle.ats_clock_examples.specs.Explained.{ExplainedByClocks};
ghost use Rattle.ats_clock_examples.specs.FileLimits.{FilesKeepLimits};
ghost use Rattle.ats_clock_examples.specs.Fitted.{FitsAreInTrueTime};
ghost use Rattle.ats_clock_examples.specs.RateTexts.{ChangedRatesAreShown};

/// A stream has a line of rates where a rate or a burst at one of its ports is another than it declares, whatever
/// clocks there are elsewhere, and no words there but those of ports behind bridges and of talkers with clocks.
pub fn changed_rates_are_shown()
    ensures { ChangedRatesAreShown }
{}

/// A stream of a file is judged along each branch by itself, by what its talker lets through and up to the scheduler
/// of the bridge at which it ends, with limits that may be reached.
pub fn files_keep_limits()
    ensures { FilesKeepLimits }
{}

/// Stays are explained by the clock of the bridge, loads by the rates behind it, and each hop that is over is counted
/// among the totals.
pub fn explained_by_clocks()
    ensures { ExplainedByClocks }
{}

/// What `fit` prints of a talker's stream, the least burst, the declared one and who is over, asks no clock.
pub fn fits_are_in_true_time()
    ensures { FitsAreInTrueTime }
{}
