//! What it means that a sender is over what it declares.

ghost use Rattle.ats_fit_law.specs.Laws.{FramesAreReleases, OverCounts, OverIsNotKept};

/// A law: what `fit` measures of a sender is over what the sender declares exactly where its releases are not as it
/// declares. Those of a stream do not conform to the declared rate and burst, or one of a stream or a flow has no
/// declared size. And `senders_over` is the number of the senders of which that is true.
pub fn over_is_not_kept()
    ensures sender { OverIsNotKept }
    ensures number { OverCounts }
{}

/// A law: the number of frames that `fit` measures of a sender is that of all its releases, of declared sizes or not.
pub fn each_release_counts()
    ensures { FramesAreReleases }
{}
