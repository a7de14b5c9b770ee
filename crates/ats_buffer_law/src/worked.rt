//! What the law on buffers says of worked runs.

ghost use Rattle.ats_buffer_law.specs.OwnFrames.{BridgeBackMayBabble};
ghost use Rattle.ats_buffer_law.specs.Worked.{BabblerCounts, BuffersAreMet, CopiesAreHeld, OtherClassesMayBabble};

/// What the law asks can be met: by one frame over one bridge, and by two that meet at a port of the
/// bridge. Their buffers and occupancies, with the first and the last moment at which a frame is
/// there.
pub fn buffers_are_met()
    ensures { BuffersAreMet }
{}

/// A copy is at its port like any other frame: beside the frame on the trunk, after it, and together with a frame of
/// another stream. The buffers at the ports of branches, which go by the port that leads to where the branch begins.
pub fn copies_are_held()
    ensures { CopiesAreHeld }
{}

/// That talkers keep their buckets counts, and that of the talkers of a port and class alone: beside
/// a station that babbles another one's port holds no more than its buffer, and at its own port the
/// babbler has more there.
pub fn babbler_counts()
    ensures { BabblerCounts }
{}

/// Talkers of another class at the port don't count: the buffer of class 5 has room, though the talker of the stream
/// that has class 6 there does not keep its buckets.
pub fn other_classes_may_babble()
    ensures { OtherClassesMayBabble }
{}

/// Bridges count where the port, or the port before it, leaves them: two ports behind a bridge that babbles a port
/// holds no more than its buffer, and of the next port nothing is promised.
pub fn bridge_back_may_babble()
    ensures { BridgeBackMayBabble }
{}
