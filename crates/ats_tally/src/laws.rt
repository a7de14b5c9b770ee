//! Laws of the definitions.

ghost use Rattle.ats_tally.specs.OneListener.{OneListenerIsLate, OneSumForEach};

/// A law: a stream with one listener is late by its one sum, and the reason names no listener.
pub fn one_listener_is_late()
    ensures { OneListenerIsLate }
{}

/// A law: where each stream has one listener, there is one sum for each stream.
pub fn one_sum_for_each()
    ensures { OneSumForEach }
{}
