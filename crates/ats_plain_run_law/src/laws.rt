//! What definitions of runs, releases, measures, witnesses and captures come to in plainer words,
//! for all inputs.

ghost use Rattle.ats_plain_run_law.specs.Clocks.{ToldTimesAreTraced};
ghost use Rattle.ats_plain_run_law.specs.Header.{HeaderIsTraced};
ghost use Rattle.ats_plain_run_law.specs.Journeys.{JourneysAreTraced};
ghost use Rattle.ats_plain_run_law.specs.Measures.{MeasuresAreTraced};
ghost use Rattle.ats_plain_run_law.specs.Releases.{ReleasesAreTraced};
ghost use Rattle.ats_plain_run_law.specs.Talkers.{TalkersAreTraced};
ghost use Rattle.ats_plain_run_law.specs.Tellings.{TellingsAreTraced};
ghost use Rattle.ats_plain_run_law.specs.Witnesses.{WitnessesAreTraced};

/// What one frame's journey is, which legs it has, and which ports its trunk.
pub fn journeys_are_traced()
    ensures { JourneysAreTraced }
{}

/// What the records of frames tell: which record with which port, and with which later one.
pub fn tellings_are_traced()
    ensures { TellingsAreTraced }
{}

/// Which releases a run has, how many ports their frames have, and which run is ideal.
pub fn releases_are_traced()
    ensures { ReleasesAreTraced }
{}

/// What the clocks of nodes tell frames that are released or passed.
pub fn told_times_are_traced()
    ensures { ToldTimesAreTraced }
{}

/// Where senders begin, which sizes they declare, and when all nodes keep their buckets.
pub fn talkers_are_traced()
    ensures { TalkersAreTraced }
{}

/// Of how many senders a larger burst is measured than they declare, or octets that are not within
/// theirs.
pub fn measures_are_traced()
    ensures { MeasuresAreTraced }
{}

/// Which order a witness's run goes by and how long its frames wait, which number is the first
/// greatest, which port a hop of a route has, and which bound a listener.
pub fn witnesses_are_traced()
    ensures { WitnessesAreTraced }
{}

/// The bytes with which a port's capture begins.
pub fn header_is_traced()
    ensures { HeaderIsTraced }
{}
