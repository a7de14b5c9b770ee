//! Legal runs in which a network never rests, and when it has rested.

ghost use Rattle.ats_steady_law.specs.Resting.{EachSchedulerRests, EachStreamRests, RestsAreExact};
ghost use Rattle.ats_steady_law.specs.Steady.{SteadyIsLegal};

/// For each number there is a legal run of a stream with exactly so many frames that a bridge sends without a pause:
/// a legal run need not have a rest.
pub fn steady_is_legal()
    ensures { SteadyIsLegal }
{}

/// By when a run is over, and from when on a network has rested, to the picosecond.
pub fn rests_are_exact()
    ensures { RestsAreExact }
{}

/// A network rests until the bucket of each of its streams is full, be it that of the first or that of the last.
pub fn each_stream_rests()
    ensures { EachStreamRests }
{}

/// And until that of each of its schedulers is: where a bridge's clock steps, a scheduler has a greater burst than its
/// stream declares, and its bucket fills later.
pub fn each_scheduler_rests()
    ensures { EachSchedulerRests }
{}
