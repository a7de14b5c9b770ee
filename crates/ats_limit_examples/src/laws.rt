//! Limits on ports, just kept and just broken.

ghost use Rattle.ats_limit_examples.specs.Chains.{LongPathsAreFound, LongRequestsAreLimited, LongRoutesAreLimited};
ghost use Rattle.ats_limit_examples.specs.Legs.{LegsAreLimited};

/// Paths of 16 links and of 17 are found by their names, so that in formats 1 and 2 it is the limit that is told of the
/// latter; by its ends one of 8.
pub fn long_paths_are_found()
    ensures { LongPathsAreFound }
{}

/// A flow of a network file goes along at most 16 links in format 2, and a flow and a stream of one of format 3 along
/// at most 64.
pub fn long_routes_are_limited()
    ensures { LongRoutesAreLimited }
{}

/// A stream that a line of a request file asks for goes along at most 16 links in formats 1 and 2, and along at most 64
/// where routes may be long.
pub fn long_requests_are_limited()
    ensures { LongRequestsAreLimited }
{}

/// Each route of a stream has at most 64 ports, and in a network of short routes 16, however many its legs have
/// together, and the ports of all legs of all streams are at most 65,536. Of the ports of frames, of which a run may
/// have so many, each frame has all of its sender's.
pub fn legs_are_limited()
    ensures { LegsAreLimited }
{}
