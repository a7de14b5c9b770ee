//! Laws of the judgement, and what an accepted certificate promises of each legal run.

ghost use Rattle.ats_checker.specs.InTime.{HoldingIsInTime, InTimeInTrueTime, SoundIsInTime, StationsAreInTime};
ghost use Rattle.ats_checker.specs.Laws.{EachRefusalIsTheFirst, LeastIsAccepted, RefusedUnlessHolding};
ghost use Rattle.ats_port_law.specs.PortLaw.{PortLaw};
ghost use Rattle.ats_soundness_law.specs.Laws.{ShapingForFree, PathLaw, Containment, CertificateIsSound};

use ats_soundness_law::laws::TalkerRule;

/// A law: rows that ascend by port and then class are refused exactly where they do not hold for the network.
pub fn refused_unless_holding()
    ensures { RefusedUnlessHolding }
{}

/// A law: rows that ascend by port and then class get a refusal exactly where it names the first clause that fails,
/// there the first port and class, row, field or stream that breaks it, and the number that belongs to it.
pub fn each_refusal_is_the_first()
    ensures { EachRefusalIsTheFirst }
{}

/// A law: where a network has no reason against it, its least certificate is not refused.
pub fn least_is_accepted()
    ensures { LeastIsAccepted }
{}

/// The port law: at a port that keeps the port rule, with transmissions that it may be asked to make, each frame of a
/// class arrives behind the port within the bound of a row that covers it.
pub fn port_law()
    ensures { PortLaw }
{
    ats_port_law::laws::port_law()
}

/// Shaping is free: behind a port with a row that holds, and that is asked to send no more than the port law wants,
/// each frame of the row's class is eligible within the row's bound of its eligibility at the port.
pub fn shaping_for_free()
    ensures { ShapingForFree }
{
    ats_soundness_law::laws::shaping_for_free()
}

/// The path law: where a certificate holds, each frame of a stream whose talker keeps its buckets, as the bridges on
/// its way do, is never discarded, is eligible at each next hop within the bound of the hop before, and arrives within
/// the sum of the bounds.
pub fn path_law()
    ensures { PathLaw }
{
    ats_soundness_law::laws::path_law()
}

/// Containment: where a certificate holds, each frame of any stream that the first bridge lets through is never
/// discarded from there on, and is eligible at each next hop within the bound of the hop before, where the bridges from
/// there on keep their buckets.
pub fn containment()
    ensures { Containment }
{
    ats_soundness_law::laws::containment()
}

/// A certificate that holds is sound: in each legal run of the network the path law and containment are kept.
pub fn certificate_is_sound()
    ensures { CertificateIsSound }
{
    ats_soundness_law::laws::certificate_is_sound()
}

/// By sound bounds with which each stream is in time, frames arrive within the sum of the bounds along their paths and
/// within their streams' deadlines, whichever the judge of groups and the rule of talkers.
pub fn sound_is_in_time<R: TalkerRule>()
    ensures { SoundIsInTime R.kept }
{}

/// Where all routes begin at stations, frames are in time so, the bridges on their ways being asked, exactly where they
/// are with their talkers asked alone.
pub fn stations_are_in_time<R: TalkerRule>()
    ensures { StationsAreInTime R.kept }
{}

/// Where all nodes read true time nothing is asked of clocks: frames that are in time by clocks that differ are in time
/// there.
pub fn in_time_in_true_time()
    ensures { InTimeInTrueTime }
{}

/// Deadlines are kept: where a certificate holds, in each legal run each frame of a stream whose talker keeps its
/// buckets, as the bridges on its way do, arrives within the sum of the bounds along its path, and within its stream's
/// deadline.
pub fn holding_is_in_time()
    ensures { HoldingIsInTime }
{}
