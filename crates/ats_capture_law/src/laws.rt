//! What is proved of the definitions themselves.

ghost use Rattle.ats_capture_law.specs.Laws.{TrafficHasFewPorts, TrafficIsCounted, TrafficMayBeRun};

/// A law: the records of a capture at a station come to the releases of those that belong to a stream of the station
/// and are no longer than a frame, in their order, each at the greatest time of the records up to it, less the time of
/// the first record; and to three counts: of all records, of those that belong to no stream of the station, and of
/// those that belong to one and are longer. The fault names the first record whose release no run may have, if any.
pub fn traffic_is_counted()
    ensures { TrafficIsCounted }
{}

/// A law: the releases that the records of a file come to at a station may be run on the network: there are no more
/// than a run may have, in the order of their times, each of a sender of the network, with the octets of a frame, and
/// within the greatest time.
pub fn traffic_may_be_run()
    ensures { TrafficMayBeRun }
{}

/// A law: the ports of the frames that the records of a capture come to at a station, a frame having those of its
/// sender, are together not more than those of a run may be.
pub fn traffic_has_few_ports()
    ensures { TrafficHasFewPorts }
{}
