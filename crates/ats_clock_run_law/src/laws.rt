//! What is proved of legal runs and of the clocks by which their nodes go.

ghost use Rattle.ats_clock_run_law.specs.Laws.{IdealClocksShowTrueTime, StationsReadTrueTime, TrueTimeIsLegal};

/// A run in which all nodes read true time, and nothing happens that its rules forbid, is legal: with clocks that show
/// true time, which keep each deviation and each step, and frames that were told when they are eligible.
pub fn true_time_is_legal()
    ensures { TrueTimeIsLegal }
{}

/// Where each node declares the ideal clock, a legal run is one in which all nodes read true time: clocks may differ by
/// constants, which neither groups nor ports see.
pub fn ideal_clocks_show_true_time()
    ensures { IdealClocksShowTrueTime }
{}

/// A station reads true time: what it releases, it releases by its clock at the times of the run.
pub fn stations_read_true_time()
    ensures { StationsReadTrueTime }
{}
