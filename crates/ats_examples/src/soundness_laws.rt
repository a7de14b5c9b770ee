//! What the laws of soundness say of worked certificates and runs, and what they rest on.

ghost use Rattle.ats_examples.specs.ClassBounds.{ClassesAreSound};
ghost use Rattle.ats_examples.specs.Judges.{RegulatorCounts};
ghost use Rattle.ats_examples.specs.LawsMet.{BridgesAreMet, LawsAreMet};
ghost use Rattle.ats_examples.specs.OwnFrames.{EndsMayBabble, OwnAreContained, OwnBabblerCounts, OwnDelayCounts};
ghost use Rattle.ats_examples.specs.OwnFrames.{OwnFramesAreServed};
ghost use Rattle.ats_examples.specs.RuleBreaks.{EachRuleCounts};
ghost use Rattle.ats_examples.specs.SoundRuns.{BabblerIsContained, BridgedAreSound, ExactExamples, ExactnessCounts};
ghost use Rattle.ats_examples.specs.SoundRuns.{OrderDoesNotCount};
ghost use Rattle.ats_examples.specs.SpreadBounds.{LinkRuleCounts, PacesAreSound};

/// What the laws ask of a network, a certificate and a run can all hold at once, and the sum of the
/// bounds is met: here is one frame over one bridge, which arrives exactly when that sum is over.
/// And a legal run of the same network whose talker does not keep its bucket: of it the path law
/// says nothing, and containment does. There a frame is later than its bounds say, so that a
/// talker's buckets count, and containment begins behind the first bridge.
///
/// So can they where routes begin and end at the bridge, and this is asked to keep its buckets.
pub fn laws_are_met()
    ensures line { LawsAreMet }
    ensures bridges { BridgesAreMet }
{}

/// None of the ten rules can be left out: for each there is a network and a certificate that breaks
/// this rule alone, and that is not sound, because in some legal run a frame is discarded, or comes
/// later than its bounds say.
pub fn each_rule_counts()
    ensures { EachRuleCounts }
{}

/// What the laws say of runs over two bridges and over three: one frame arrives exactly when the
/// sum of its bounds is over; of two at once, which are more than the burst, the second is not
/// served, and from the first bridge on it is contained, just so. And of a run with a babbler: the
/// other station's frame is served, and each frame is contained.
pub fn runs_are_sound()
    ensures bridged { BridgedAreSound }
    ensures babbler { BabblerIsContained }
{}

/// A run whose frames take exactly the latency of each port, and one that takes 1 ps more; and one
/// over a port with a spread, which is legal though its frame takes less. And rows out of order,
/// which are no certificate, and sound.
pub fn more_examples()
    ensures exact { ExactExamples }
    ensures exactness_counts { ExactnessCounts }
    ensures turned { OrderDoesNotCount }
{}

/// That groups regulate counts: by a judge that lets nothing through there is a legal run in which
/// a frame is discarded whose talker keeps its buckets.
pub fn regulator_counts()
    ensures { RegulatorCounts }
{}

/// A stream whose class changes along its path: its certificate, which has a row of each of its classes, holds, and its
/// frames are served, one of them later than the bounds of its first class say.
pub fn classes_are_sound()
    ensures { ClassesAreSound }
{}

/// A bridge that takes 200 to 1000 ns to process a frame: the certificate holds where the residence
/// is the wait and the port's spread. There a frame stays exactly as long as it may; a residence
/// 1 ns shorter breaks this rule alone, and the bounds are not sound.
pub fn paces_are_sound()
    ensures { PacesAreSound }
{}

/// Frames that a bridge sends itself, and frames that end at one: where all nodes keep their buckets, each is served.
/// That the bridge keeps its own counts: where it does not, a frame whose talker does comes later than the sum of its
/// bounds, or is discarded. And it counts on the way alone: frames that end at a bridge are served whatever it sends,
/// and those of a bridge that babbles are contained from the next one on.
pub fn own_frames_count()
    ensures met { OwnFramesAreServed }
    ensures babbler { OwnBabblerCounts }
    ensures delay { OwnDelayCounts }
    ensures ends { EndsMayBabble }
    ensures contained { OwnAreContained }
{}

/// None of what the link rule asks can be left out: a frame that arrives a picosecond later than it may, or earlier, or
/// overtakes another, breaks it alone, and a frame of a talker that keeps its buckets is late or discarded.
pub fn link_rule_counts()
    ensures { LinkRuleCounts }
{}
