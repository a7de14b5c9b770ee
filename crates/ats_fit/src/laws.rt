//! What is proved of the definitions, for all frames and releases.

ghost use Rattle.ats_fit.specs.Laws.{LeastBurstExists, LeastBurstIsOne, LessBreaks, MeasuredIsOne, NoneOverIsKept};
ghost use Rattle.ats_fit.specs.Laws.{NoFramesNeedNone, OneFrameIsItsBits};

/// Frames in the order of their times have a least burst with which they conform to a rate.
pub fn least_burst_exists()
    ensures { LeastBurstExists }
{}

/// They have one alone.
pub fn least_burst_is_one()
    ensures { LeastBurstIsOne }
{}

/// It is the burst with which they conform, while with one that is less by any number of bits they do not.
pub fn less_breaks()
    ensures { LessBreaks }
{}

/// The least burst of no frames is 0.
pub fn no_frames_need_none()
    ensures { NoFramesNeedNone }
{}

/// That of one frame is its bits.
pub fn one_frame_is_its_bits()
    ensures { OneFrameIsItsBits }
{}

/// `fit` can give one answer alone.
pub fn measured_is_one()
    ensures { MeasuredIsOne }
{}

/// No sender is over what it declares exactly where every node keeps its buckets: where `senders_over` of what `fit`
/// gives is 0, `conform` of `ats_conform` answers `Ok`, and nowhere else.
pub fn none_over_is_kept()
    ensures { NoneOverIsKept }
{}
