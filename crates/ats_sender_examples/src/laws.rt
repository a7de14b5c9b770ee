//! What is told of each of several senders.

ghost use Rattle.ats_sender_examples.specs.Captured.{SendersAreCaptured};
ghost use Rattle.ats_sender_examples.specs.Copied.{CopiesCountOnce};
ghost use Rattle.ats_sender_examples.specs.Each.{EachIsMeasured};
ghost use Rattle.ats_sender_examples.specs.Measured.{SendersAreMeasured};

/// The capture of a port that sent frames of two streams with addresses of their own and of a flow, each of other
/// octets, byte by byte.
pub fn senders_are_captured()
    ensures { SendersAreCaptured }
{}

/// What is measured of releases of two streams and a flow, each with other numbers of frames, octets and bursts, and
/// what is printed of it; also where a stream or the flow has no frame.
pub fn senders_are_measured()
    ensures { SendersAreMeasured }
{}

/// What is measured of releases of a stream with two listeners: each frame counts once.
pub fn copies_count_once()
    ensures { CopiesCountOnce }
{}

/// A law, of any releases of any network, both ways: what is measured of each sender, part by part.
pub fn each_is_measured()
    ensures { EachIsMeasured }
{}
