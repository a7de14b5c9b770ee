//! Laws of the definitions.

ghost use Rattle.ats_explain.specs.Laws.{ClearWhereOneHolds, EachStreamAddsUp};

/// A law: at each hop of a stream each of the five parts is what it stands for, they add up to the bound, and along the
/// route to each listener the bounds add up to the sum for it.
pub fn each_stream_adds_up()
    ensures { EachStreamAddsUp }
{}

/// A law: no stream is late for a listener and no frame may have to stay longer than it may exactly where some
/// certificate of the network holds.
pub fn clear_where_one_holds()
    ensures { ClearWhereOneHolds }
{}
