//! A law of the definitions.

ghost use Rattle.ats_certificate.specs.OneListener.{OneListenerHasOneSum};

/// A law: a stream with one listener has one sum of bounds, that along its ports, and it is in time where this sum is
/// within its deadline.
pub fn one_listener_has_one_sum()
    ensures { OneListenerHasOneSum }
{}
