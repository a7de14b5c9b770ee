//! What lines that are printed say as a whole, and in which order they come, for all inputs.

ghost use Rattle.ats_plain_text_law.specs.Admits.{AdmitIsWritten};
ghost use Rattle.ats_plain_text_law.specs.Checks.{CheckIsWritten};
ghost use Rattle.ats_plain_text_law.specs.Explains.{ExplainIsWritten};
ghost use Rattle.ats_plain_text_law.specs.Fits.{FitIsWritten};
ghost use Rattle.ats_plain_text_law.specs.Replays.{ReplayIsWritten};
ghost use Rattle.ats_plain_text_law.specs.Reports.{ReportIsWritten};
ghost use Rattle.ats_plain_text_law.specs.Shows.{ShowIsWritten};
ghost use Rattle.ats_plain_text_law.specs.Witnesses.{WitnessIsWritten};

/// What `show` prints of ports, streams, listeners, flows and rates.
pub fn show_is_written()
    ensures { ShowIsWritten }
{}

/// What `explain` prints of listeners, hops, ports and totals, in time and late.
pub fn explain_is_written()
    ensures { ExplainIsWritten }
{}

/// What `check` prints of a column that is wrong, and of the listeners where a certificate holds.
pub fn check_is_written()
    ensures { CheckIsWritten }
{}

/// What `admit` answers to requests, one by one.
pub fn admit_is_written()
    ensures { AdmitIsWritten }
{}

/// What `replay` prints of hops and of a whole run, and which ways ended late, or for their size.
pub fn replay_is_written()
    ensures { ReplayIsWritten }
{}

/// What `generate` prints of each listener of each sender, with its bound where there is one.
pub fn report_is_written()
    ensures { ReportIsWritten }
{}

/// What `fit` prints of senders, and of releases, streams and those that are over.
pub fn fit_is_written()
    ensures { FitIsWritten }
{}

/// What `witness` prints of each listener of a stream.
pub fn witness_is_written()
    ensures { WitnessIsWritten }
{}
