//! What the laws of soundness say of runs with copies.

ghost use Rattle.ats_tree_examples.specs.Served.{BabblersAreContained, BranchesCount, EachListenerCounts};
ghost use Rattle.ats_tree_examples.specs.Served.{ListenersAreServed, StayCounts};

/// A frame and its copies are served at each listener, and arrive exactly when the sum of the bounds there is over. If
/// one copy came 1 ps later, the run would not be legal.
pub fn listeners_are_served()
    ensures { ListenersAreServed }
{}

/// Beside a babbler with two listeners the other station's frame is served, and each frame of the babbler is contained
/// on its way to each listener.
pub fn babblers_are_contained()
    ensures { BabblersAreContained }
{}

/// That a stream's burst counts at the ports of its branches counts, and that its frames may stay as long as they may
/// have to before a branch: where not, a frame is late at one listener, or discarded for those behind one bridge.
pub fn branches_count()
    ensures bursts { BranchesCount }
    ensures stay { StayCounts }
{}

/// A frame that comes too late for one of its stream's listeners alone, whichever this is, is neither served nor
/// contained, and bounds by which it does are not sound.
pub fn each_listener_counts()
    ensures { EachListenerCounts }
{}
