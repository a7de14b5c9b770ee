//! Runs of small networks, written out in full, that are legal or not.

ghost use Rattle.ats_examples.specs.BrokenRuns.{EachBreaksAlone};
ghost use Rattle.ats_examples.specs.ChangedRuns.{ChangedExamplesAreNot};
ghost use Rattle.ats_examples.specs.ClassRuns.{ClassesOfGroups, ClassesOfPorts};
ghost use Rattle.ats_examples.specs.Crossings.{LinkExamples};
ghost use Rattle.ats_examples.specs.Deviations.{EachPartCounts};
ghost use Rattle.ats_examples.specs.LegalRuns.{BabblerIsLegal, BridgedAreLegal, ExamplesAreLegal, RegulatedAreLegal};
ghost use Rattle.ats_examples.specs.LegalRuns.{RunsAreAnyLawful};
ghost use Rattle.ats_examples.specs.PacedRuns.{ArrivalsAreLegal, ArrivalsBreakLinks, ArrivalsByPace};
ghost use Rattle.ats_examples.specs.Talkers.{TalkersOfExamples};

/// One frame over one bridge, a frame that is discarded for its size, a frame behind one of a flow,
/// and two frames that become eligible at the same time, in either order. And a frame that the
/// bridge holds back, one that is late, and what becomes of another stream's frame behind each: it
/// waits for one of its group that is held back, and for no late one and none of another class.
pub fn examples_are_legal()
    ensures plain { ExamplesAreLegal }
    ensures regulated { RegulatedAreLegal }
{}

/// One frame over two bridges and over three, and behind it one more of its talker at once, which
/// the first bridge holds back and no later one. And a station that babbles: of 23 small frames at
/// once the bridge sends most on as they come, holds some back and discards the last; another
/// station's frame goes between them.
pub fn bridged_are_legal()
    ensures bridged { BridgedAreLegal }
    ensures babbler { BabblerIsLegal }
{}

/// Legal runs of kinds that the program makes none of: with two frames of a sender out of order at a port, with ties
/// that no one key of sender and frame breaks at all ports, and with a release after the last time at which it may be
/// run. So a legal run is asked for none of this.
pub fn runs_are_any_lawful()
    ensures { RunsAreAnyLawful }
{}

/// Runs that are not legal: for each field of a legal run, of a journey and of the port rule one of
/// the legal examples with one number changed, and runs that break one part alone.
pub fn changed_examples_are_not()
    ensures changed { ChangedExamplesAreNot }
    ensures alone { EachBreaksAlone }
{}

/// No part follows from the others: for each there is a run that breaks it alone.
pub fn each_part_counts()
    ensures { EachPartCounts }
{}

/// A talker that sends its burst, and again as soon as its rate allows, keeps its bucket; 1 ps
/// sooner it breaks it, as does one with a frame that is too long.
pub fn talkers_of_examples()
    ensures { TalkersOfExamples }
{}

/// A link that takes no fixed time: a frame may arrive as soon as the one sent before it has, in
/// its own time, and neither with it nor before.
pub fn link_examples()
    ensures { LinkExamples }
{}

/// Streams whose class changes from one port to the next: a frame goes by its class at the port that sends it, and
/// behind a port by its class at this port. Each legal run has a companion that goes by the class of another port, and
/// breaks one part alone.
pub fn classes_of_runs()
    ensures ports { ClassesOfPorts }
    ensures groups { ClassesOfGroups }
{}

/// A bridge that takes 200 to 1000 ns to process a frame: frames may arrive at both ends of their interval and inside
/// it. A picosecond outside it, and with the frame before or before that, they break the link rule alone. And which of
/// these runs are those of a tie and a pace; no other arrival is.
pub fn paced_runs()
    ensures legal { ArrivalsAreLegal }
    ensures broken { ArrivalsBreakLinks }
    ensures by_pace { ArrivalsByPace }
{}
