//! What is proved of what ports hold, for each network, certificate and legal run.

ghost use Rattle.ats_buffer_law.specs.Laws.{BuffersHold, EachTransmissionCrosses, PeaksFit, StationsAreAsked};

/// Where a certificate holds, in each legal run, whatever the clocks of its bridges show, the occupancy of each port
/// and class is at every time at most its buffer by the certificate's rows, if each node keeps its buckets, by its own
/// clock, at which a stream begins that has the class at the port, and each bridge from which that stream goes on
/// towards it. Nothing is asked of any other node.
pub fn buffers_hold()
    ensures { BuffersHold }
{}

/// Where all routes begin at stations, each bridge keeps its buckets whatever is released, and the talkers of a port
/// and class alone are asked, in true time.
pub fn stations_are_asked()
    ensures { StationsAreAsked }
{}

/// So in a run by true time the peak of each row of the certificate is at most its buffer.
pub fn peaks_fit()
    ensures { PeaksFit }
{}

/// In a legal run the transmissions are those of the crossings, one by one: an occupancy, which
/// counts crossings, leaves no transmission out.
pub fn each_transmission_crosses()
    ensures { EachTransmissionCrosses }
{}
