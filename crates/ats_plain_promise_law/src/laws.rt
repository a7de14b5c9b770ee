//! What is promised of frames, and in which runs, in plainer words.

ghost use Rattle.ats_plain_promise_law.specs.LegalRuns.{LegalRunsArePlain};
ghost use Rattle.ats_plain_promise_law.specs.Promises.{PromisesArePlain};
ghost use Rattle.ats_plain_promise_law.specs.Promptness.{PromptnessIsPlain};
ghost use Rattle.ats_plain_promise_law.specs.TrueTimes.{TrueTimesArePlain};

/// When a frame is eligible in true time that was told a time by a clock.
pub fn true_times_are_plain()
    ensures { TrueTimesArePlain }
{}

/// When a frame arrives by a time, and when it is contained on its way.
pub fn promptness_is_plain()
    ensures { PromptnessIsPlain }
{}

/// What each command promises of its text: of `check` and `lrq check`, of which frames in which runs, and of no other.
pub fn promises_are_plain()
    ensures { PromisesArePlain }
{}

/// By which clocks of nodes and which told times a run is legal: just those by which nothing in it is forbidden.
pub fn legal_runs_are_plain()
    ensures { LegalRunsArePlain }
{}
