//! What bounds, certificates and reasons say of streams with several listeners.

ghost use Rattle.ats_tree_examples.specs.Bounds.{ListenersAreExplained, ListenersHaveBounds, ReasonsNameListeners};
ghost use Rattle.ats_tree_examples.specs.Bounds.{SumsCountOnce};

/// A stream counts once in the sums and the load of each of its ports, however many listeners are behind it.
pub fn sums_count_once()
    ensures { SumsCountOnce }
{}

/// The least certificates of the worked networks, and the sum of the bounds for each listener.
pub fn listeners_have_bounds()
    ensures { ListenersHaveBounds }
{}

/// A reason names the first listener for which a stream is late: with its station, where it is not the stream's first.
pub fn reasons_name_listeners()
    ensures { ReasonsNameListeners }
{}

/// For how many of its listeners a stream is late, and which of them is the tightest.
pub fn listeners_are_explained()
    ensures { ListenersAreExplained }
{}
