//! Laws of the totals.

ghost use Rattle.ats_replay.specs.Laws.{EachListenerCountsOnce};

/// A law: of each frame of a run and each of its listeners one of the numbers `sunk`, `late` and `size` counts one, in
/// the totals of the run and in the summary for the listener.
pub fn each_listener_counts_once()
    ensures { EachListenerCountsOnce }
{}
