//! Worked networks, certificates and releases, and what the laws say of them.

ghost use Rattle.ats_verdict_examples.specs.Admitted.{StreamsAreAdmitted};
ghost use Rattle.ats_verdict_examples.specs.Captured.{CapturesAreMet};
ghost use Rattle.ats_verdict_examples.specs.Conformance.{ConformanceIsMet};
ghost use Rattle.ats_verdict_examples.specs.Explained.{ExplanationsAreMet};
ghost use Rattle.ats_verdict_examples.specs.FirstBroken.{BrokenAreMeant, FirstBrokenIsNamed};
ghost use Rattle.ats_verdict_examples.specs.FirstCauses.{CausesAreFirst};
ghost use Rattle.ats_verdict_examples.specs.Made.{MakingIsMet};
ghost use Rattle.ats_verdict_examples.specs.OneLess.{AdmissionIsMet};
ghost use Rattle.ats_verdict_examples.specs.Reasons.{ReasonsAreMet};
ghost use Rattle.ats_verdict_examples.specs.Refusals.{RefusalsAreMet};
ghost use Rattle.ats_verdict_examples.specs.Requested.{RequestsAreMet};
ghost use Rattle.ats_verdict_examples.specs.Ways.{WalksAreMet};

use ats_explain::laws::{clear_where_one_holds, each_stream_adds_up};

/// Releases by which every node keeps its buckets, and such that one frame breaks what its stream declares, a
/// picosecond early or an octet long. What is named then is the frame from which on the bucket is exceeded by most, the
/// first of two that are as bad; of two streams that break theirs, the one whose frame is first. A flow may send frames
/// at once, of declared sizes.
pub fn conformance_is_met()
    ensures { ConformanceIsMet }
{}

/// A law, of any releases to any network, both ways: what is named is the first frame by which some node does not keep
/// its buckets; for its size where that is not declared, and else since the frame that is worst by the rate and the
/// burst of its own sender.
pub fn broken_are_meant()
    ensures { BrokenAreMeant }
{}

/// Of two streams of different rates the bucket of the faster is exceeded since the frame that is worst by its own
/// rate; and of a frame that breaks its bucket and one that breaks a size, the first is named.
pub fn first_broken_is_named()
    ensures { FirstBrokenIsNamed }
{}

/// A network with each of the three reasons, which is the first against it, so that no certificate holds; and one a
/// single number away, which has no reason against it.
pub fn reasons_are_met()
    ensures { ReasonsAreMet }
{}

/// Rows that hold, and rows that are refused for each of the seven causes, which is the first against them.
pub fn refusals_are_met()
    ensures { RefusalsAreMet }
{}

/// Rows with two causes against them at once, and networks with two reasons: which of them is named, wherever each
/// stands. A load of just the link is no overload, and a longer wait with the bound that follows is enough.
pub fn causes_are_first()
    ensures { CausesAreFirst }
{}

/// A bound whose five parts all count, and add up to it; a network that is clear, for which a certificate holds, and
/// one a nanosecond of a deadline or of a residence away that is not.
pub fn explanations_are_met()
    ensures { ExplanationsAreMet }
{
    each_stream_adds_up();
    clear_where_one_holds();
}

/// A network of three streams less one: what falls, what stays the same, and a stream that is late by the one more.
pub fn admission_is_met()
    ensures { AdmissionIsMet }
{}

/// Eight requests to a worked network get the answers that are written out beside them, to the picosecond.
pub fn requests_are_met()
    ensures { RequestsAreMet }
{}

/// The lowest class of a stream is one above those in which it is late, with its very bounds as its deadline. A stream
/// that is admitted stands last with the class it asks for, a denial leaves all as it was, and one that is withdrawn
/// leaves the others in their order.
pub fn streams_are_admitted()
    ensures { StreamsAreAdmitted }
{}

/// The releases of four frames that are made from a seed, which stand by time in another order. As they were made they
/// are no made releases, nor from another seed. And what is drawn from the least and the greatest seed.
pub fn making_is_met()
    ensures { MakingIsMet }
{}

/// Of two shortest walks around a ring the one that is found, which is the least by port numbers, whatever the nodes
/// and the rates; and two lines between which no walk leads.
pub fn walks_are_met()
    ensures { WalksAreMet }
{}

/// Records of a capture: with a release, of no stream, longer than a frame, back in time, and over a limit. What they
/// come to one after another is what they come to all at once.
pub fn captures_are_met()
    ensures { CapturesAreMet }
{}
