//! What is found in worked networks.

ghost use Rattle.ats_witness_law.specs.Worked.{BurstsCount, EachListenerIsFound, FoundDelaysAreMet};
ghost use Rattle.ats_witness_law.specs.Worked.{FurtherListenersAreFound};

/// The burst at each port of a stream and the delay found there, in a network where two streams meet, whose
/// bound is reached, and in one where a flow is in the way, whose bound is not.
pub fn found_delays_are_met()
    ensures { FoundDelaysAreMet }
{}

/// What is found of a stream for each of its two listeners, where a flow is in the way of the first: the delays differ,
/// in one run too.
pub fn each_listener_is_found()
    ensures { EachListenerIsFound }
{}

/// What is found of a stream for a further listener: where a flow is in the way at the port to it alone, the delay is
/// found there; and where its route is longer than that to the first, there is a delay for each port of it.
pub fn further_listeners_are_found()
    ensures { FurtherListenersAreFound }
{}

/// Releases with one number changed are no burst, and a delay one picosecond longer is none of that run; in which the
/// stream goes last, since where it goes first another delay is the greatest.
pub fn bursts_count()
    ensures { BurstsCount }
{}
