//! What is told of what is found of a later stream and for a later listener, and of which hop the burst is told, on
//! closed examples.

ghost use Rattle.ats_found_examples.specs.Bursts.{BurstIsOfHop};
ghost use Rattle.ats_found_examples.specs.Each.{EachIsFound};
ghost use Rattle.ats_found_examples.specs.EachText.{TextsAreOfTheirStream};
ghost use Rattle.ats_found_examples.specs.Hops.{HopIsFirst};
ghost use Rattle.ats_found_examples.specs.Later.{LaterIsTold, LaterListenersAreTold};

use ats_witness_law::laws::burst_is_one;

/// What is found of a stream is told by its own ports and its own name, and each release by the name of its sender.
pub fn later_is_told()
    ensures { LaterIsTold }
{}

/// What is found for a further listener is told by the ports of the route there, its station's name, and its own bound.
pub fn later_listeners_are_told()
    ensures { LaterListenersAreTold }
{}

/// A law of any network: the name, the ports and the station that are told are those of the stream that is asked for,
/// and of its own route to the listener.
pub fn texts_are_of_their_stream()
    ensures { TextsAreOfTheirStream }
{}

/// The burst that is told is that of the first hop with a greatest delay, and of no other: not of a later one with the
/// same delay, and not of one with a shorter delay.
pub fn hop_is_first()
    ensures { HopIsFirst }
{}

/// Of all that is found the releases are those of a run in which the stream's greatest delay is the one at the hop: the
/// burst at the port of this hop, and not the one at the last port of the route.
pub fn burst_is_of_hop()
    ensures { BurstIsOfHop }
{
    burst_is_one();
}

/// A law, of any network and run, both ways: which releases are a burst, in which order, and which delay is the
/// greatest of a sender for a listener.
pub fn each_is_found()
    ensures { EachIsFound }
{}
