//! Laws of the burst at a port, and of found delays.

ghost use Rattle.ats_witness_law.specs.Laws.{BurstIsOne, BurstKeepsBuckets, DelaysAreExact, FoundDelaysHappen};
ghost use Rattle.ats_witness_law.specs.Laws.{FoundIsWithin, HappensByClocks, HappensLawfully, HappensWithin};
ghost use Rattle.ats_witness_law.specs.Laws.{LastGoesLast, NoSoundBoundIsLess, OneListenerComesByItsPath};
ghost use Rattle.ats_witness_law.specs.Laws.{TravelGoesOverThePortBefore};

/// Of frames that tie, those of any other sender go before those of the last one.
pub fn last_goes_last()
    ensures { LastGoesLast }
{}

/// The travel of a sender to the first port of its routes is nothing; to each other port it is the travel to the port
/// before and the time over that one.
pub fn travel_goes_over_the_port_before()
    ensures { TravelGoesOverThePortBefore }
{}

/// Where a sender has one listener, its frames come to a port over the ports before it on its path.
pub fn one_listener_comes_by_its_path()
    ensures { OneListenerComesByItsPath }
{}

/// No two lists of releases are the burst at a port for a class.
pub fn burst_is_one()
    ensures { BurstIsOne }
{}

/// By the burst every node keeps its buckets.
pub fn burst_keeps_buckets()
    ensures { BurstKeepsBuckets }
{}

/// In a legal run no frame arrives before its release, so what it took is its arrival less its release.
pub fn delays_are_exact()
    ensures { DelaysAreExact }
{}

/// What is found can happen: in a run in which all nodes read true time, nothing happens that its rules forbid, and
/// every node keeps its buckets, a frame of the stream takes just so long to the listener.
pub fn found_delays_happen()
    ensures { FoundDelaysHappen }
{}

/// The run of a delay that can happen is one by true time, and in it every node keeps its buckets.
pub fn happens_lawfully()
    ensures { HappensLawfully }
{}

/// What can happen by true time can happen where each bridge goes by its own clock, since it may show true time.
pub fn happens_by_clocks()
    ensures { HappensByClocks }
{}

/// A delay that can happen, by whatever clocks, is no more than sound bounds give the stream together along the route
/// to the listener.
pub fn happens_within()
    ensures { HappensWithin }
{}

/// So no bounds are sound that give the stream less together along the route there: where its least bounds give just
/// as much, they are tight.
pub fn no_sound_bound_is_less()
    ensures { NoSoundBoundIsLess }
{}

/// Nothing that is found of a stream for a listener is above the sum of its bounds along the route there, by a
/// certificate that holds.
pub fn found_is_within()
    ensures { FoundIsWithin }
{}
