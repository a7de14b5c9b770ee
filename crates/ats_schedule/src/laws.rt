//! What is proved of the definitions themselves.

ghost use Rattle.ats_schedule.specs.Laws.{ScheduleReadsBack};

/// What is read from the text of releases that may be run on a network, the ports of whose frames are together at most
/// 3,200,000, are these releases.
pub fn schedule_reads_back()
    ensures { ScheduleReadsBack }
{}
