//! What is proved of each network, certificate and legal run.

ghost use Rattle.std.specs.Prelude.{List};
ghost use Rattle.ats_bucket.specs.Conforming.{Frame};
ghost use Rattle.ats_streams.specs.declared.traffic.Declared.{Declared};
ghost use Rattle.ats_soundness_law.specs.OneListener.{OneListenerIsServedAlone};
ghost use Rattle.ats_soundness_law.specs.Rules.{HoldsIsEachRule};
ghost use Rattle.ats_soundness_law.specs.Laws.{PortIsOffered, ShapingForFree, PathLaw, Containment};
ghost use Rattle.ats_soundness_law.specs.Laws.{SoundByRule, SoundByRules, SoundByClocks, CertificateIsSound};
ghost use Rattle.ats_soundness_law.specs.Laws.{SoundInTrueTime, StationsPromiseAll};

/// A rule that talkers may keep: what it asks of the frames of a stream, by what the stream declares.
pub trait TalkerRule {
    /// The frames keep it.
    ghost kept: { Declared → List Frame → Type 0 };
}

/// A port that leaves a node that keeps its buckets by its clock, a station or a bridge, is asked to
/// send no more than the port law wants: frames of declared sizes, and those of each stream conform in
/// true time to the rate and burst that the port sees of it. What is not the node's own came through
/// the schedulers of the node, whatever any talker does.
pub fn port_is_offered()
    ensures { PortIsOffered }
{}

/// Shaping is free: behind a port with a row that holds, and that leaves a node that keeps its
/// buckets, each frame of the row's class is eligible within the row's bound of its eligibility at
/// the port, in true time, whatever the clocks of both bridges show.
pub fn shaping_for_free()
    ensures { ShapingForFree }
{}

/// The path law: where a certificate holds, each frame of a stream whose talker keeps its buckets
/// is never discarded on its way to any listener such that the bridges on the way keep theirs too, is
/// eligible at each next hop within the bound of the hop before, and arrives within the sum of the
/// bounds of the route there.
pub fn path_law()
    ensures { PathLaw }
{}

/// Containment: where a certificate holds, each frame of any stream that is eligible behind its first
/// port is never discarded from there on, on its way to any listener such that the bridges from there
/// on keep their buckets, and is eligible at each next hop within the bound of the hop before.
pub fn containment()
    ensures { Containment }
{}

/// Ten rules make bounds sound, and nothing else is asked of a certificate: neither deadlines, nor
/// the order of its rows, nor that it has no more of them. So it is for any groups that regulate
/// what the senders declare.
pub fn sound_by_rules()
    ensures { SoundByRules }
{}

/// So it is for any rule of talkers, and any groups that regulate by it.
pub fn sound_by_rule<R: TalkerRule>()
    ensures { SoundByRule R.kept }
{}

/// Ten rules make bounds sound where each bridge goes by its own clock, within its declared deviation
/// and step: all that is promised is in true time.
pub fn sound_by_clocks()
    ensures { SoundByClocks }
{}

/// A certificate that holds is sound: in each legal run of the network the path law and containment
/// are kept, whatever the clocks of bridges show within their deviations and steps, whatever other
/// talkers and flows send and whichever lawful choice each port makes among equals.
pub fn certificate_is_sound()
    ensures { CertificateIsSound }
{}

/// Where all nodes read true time nothing is asked of clocks: bounds that are sound by clocks that differ are
/// sound there, for talkers that keep their buckets in true time.
pub fn sound_in_true_time()
    ensures { SoundInTrueTime }
{}

/// Where all routes begin at stations, each bridge keeps its buckets whatever is released: sound bounds
/// promise what they do where the talker alone is asked to keep its own, in true time.
/// So it is for any rule of talkers in runs in which all nodes read true time.
pub fn stations_promise_all<R: TalkerRule>()
    ensures { StationsPromiseAll R.kept }
{}

/// A certificate holds exactly where it keeps each of ten rules, has no other row, is in order, and
/// each stream is in time.
pub fn holds_is_each_rule()
    ensures { HoldsIsEachRule }
{}

/// Where a frame's stream has one listener, it is served, and contained, on its way along the ports of the stream.
pub fn one_listener_is_served_alone()
    ensures { OneListenerIsServedAlone }
{}
