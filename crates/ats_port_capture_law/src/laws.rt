//! What is proved of the captures of ports.

ghost use Rattle.ats_port_capture_law.specs.Laws.{CaptureIsMeant, CaptureIsOne, CaptureReadsBack};
ghost use Rattle.ats_port_capture_law.specs.Worked.{PortCapturesAreWorked};

/// A law: what a port sent in a run is read back of its capture, each transmission as one record, in the order in which
/// they started: with the nanosecond of the start, the octets of its frame, and what identifies its stream.
pub fn capture_reads_back()
    ensures { CaptureReadsBack }
{}

/// A law: a port has one capture in a legal run, and no other.
pub fn capture_is_one()
    ensures { CaptureIsOne }
{}

/// A law, of any run, both ways: the capture of a port has a record of each transmission, in the order in which they
/// started, whatever becomes of the frame behind the port.
pub fn capture_is_meant()
    ensures { CaptureIsMeant }
{}

/// The captures of worked runs, byte by byte: with each kind of sender, a class that changes on the way, starts just
/// before a second and in it, frames that are sent in another order than they are numbered, frames that are discarded
/// before the port or behind it, and a frame that is copied on its way.
pub fn port_captures_are_worked()
    ensures { PortCapturesAreWorked }
{}
