//! Laws of networks that differ by one stream.

ghost use Rattle.ats_admission_law.specs.Laws.{LessHasNoReason, LessHolds, LessIsNetwork, NoSumRises, NothingRises};
ghost use Rattle.ats_admission_law.specs.Laws.{NearFindsLate, OtherPortsStay, OtherSumsStay, PathFindsFirst};
ghost use Rattle.ats_admission_law.specs.Laws.{ReasonIsAlong, ReasonIsJudged};

/// A law: a network less one stream is a network.
pub fn less_is_network()
    ensures { LessIsNetwork }
{}

/// A law: when a stream is taken out, then at each port and class that some stream still uses neither the load, nor the
/// least wait, nor the least bound rises, where the class and those above it fitted the link.
pub fn nothing_rises()
    ensures { NothingRises }
{}

/// A law: nor does the sum of the least bounds along any stream, where there was no reason against the network.
pub fn no_sum_rises()
    ensures { NoSumRises }
{}

/// A law: where there is no reason against a network, there is none against it less one stream.
pub fn less_has_no_reason()
    ensures { LessHasNoReason }
{}

/// A law: where some certificate of a network holds, the least certificate of the network less one stream holds.
pub fn less_holds()
    ensures { LessHolds }
{}

/// A law: a port that a stream does not use has the same sums, used classes and least rows with it and without it.
pub fn other_ports_stay()
    ensures { OtherPortsStay }
{}

/// A law: a stream that shares no port with another has the same sum of least bounds with it and without it.
pub fn other_sums_stay()
    ensures { OtherSumsStay }
{}

/// A law: where there is no reason against a network, the reason against it with one stream more, wherever that stands,
/// is the first along that stream's ports: a load or a need of residence at one of them, or the sum of a stream
/// that uses one of them.
pub fn reason_is_along()
    ensures { ReasonIsAlong }
{}

/// A law: a search along a path in its own order, which keeps what it finds at the lowest port, finds what stands first
/// in the order of a certificate's rows.
pub fn path_finds_first()
    ensures { PathFindsFirst }
{}

/// A law: so is the reason against a network with one stream more found.
pub fn reason_is_judged()
    ensures { ReasonIsJudged }
{}

/// A law: a search over the streams that share a port with a stream, in any order, which keeps the late one with the
/// lowest number, finds the first of them that is late.
pub fn near_finds_late()
    ensures { NearFindsLate }
{}
