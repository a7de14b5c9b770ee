//! What definitions that other laws cite on both sides, or ask for alone, come to in plainer words, for all inputs.

ghost use Rattle.ats_plain_law.specs.Bounds.{BoundsArePlain};
ghost use Rattle.ats_plain_law.specs.Broken.{BrokenArePlain};
ghost use Rattle.ats_plain_law.specs.Clocks.{AllClocksArePlain};
ghost use Rattle.ats_plain_law.specs.Constants.{ConstantsArePlain};
ghost use Rattle.ats_plain_law.specs.Faults.{FaultsArePlain};
ghost use Rattle.ats_plain_law.specs.Formats.{FormatsArePlain};
ghost use Rattle.ats_plain_law.specs.Frames.{FramesArePlain};
ghost use Rattle.ats_plain_law.specs.Judges.{JudgesArePlain};
ghost use Rattle.ats_plain_law.specs.Legs.{LegsArePlain};
ghost use Rattle.ats_plain_law.specs.Names.{NamesArePlain};
ghost use Rattle.ats_plain_law.specs.Ports.{PortsArePlain};
ghost use Rattle.ats_plain_law.specs.Refusals.{RefusalsArePlain};
ghost use Rattle.ats_plain_law.specs.Requests.{RequestsArePlain};
ghost use Rattle.ats_plain_law.specs.Runs.{RunsArePlain};
ghost use Rattle.ats_plain_law.specs.Senders.{SendersArePlain};
ghost use Rattle.ats_plain_law.specs.Settings.{SettingsArePlain};
ghost use Rattle.ats_plain_law.specs.Spacing.{SpacingIsPlain};
ghost use Rattle.ats_plain_law.specs.Verdicts.{VerdictsArePlain};
ghost use Rattle.ats_plain_law.specs.Walks.{WalksArePlain};

/// What each of a stream's and a flow's numbers is as a sender, and in which order senders are numbered.
pub fn senders_are_plain()
    ensures { SendersArePlain }
{}

/// Which walk is the least, both ways: one of fewest ports that, where it first parts from another of as many, takes
/// the port with the lower number.
pub fn walks_are_plain()
    ensures { WalksArePlain }
{}

/// What each test of nodes and links asks, with its numbers, and which fault of a stream over a topology is told where
/// a rule is broken and the limit by clocks too.
pub fn faults_are_plain()
    ensures { FaultsArePlain }
{}

/// How far apart a length-rate-quotient regulator puts frames, and a spaced talker keeps them, at any rate.
pub fn spacing_is_plain()
    ensures { SpacingIsPlain }
{}

/// What stands between two frames that a token bucket counts, in any list of them; and what it is to round up.
pub fn frames_are_plain()
    ensures { FramesArePlain }
{}

/// Which texts are not of format 3.
pub fn formats_are_plain()
    ensures { FormatsArePlain }
{}

/// What a port does, part by part, both ways: of two transmissions one has ended when the other starts, to the
/// picosecond.
pub fn ports_are_plain()
    ensures { PortsArePlain }
{}

/// Which frame is eligible, late or of a size that is not declared, by either regulator, and what a bucket holds.
pub fn verdicts_are_plain()
    ensures { VerdictsArePlain }
{}

/// What a node's declared numbers are, which clocks a bridge may have and when a clock keeps to them, and what clocks
/// make of a sender's rate and burst on its way.
pub fn clocks_are_plain()
    ensures { AllClocksArePlain }
{}

/// How the ports of a stream are cut into legs and joined to routes, where branches may begin, and when legs make a
/// tree.
pub fn legs_are_plain()
    ensures { LegsArePlain }
{}

/// How groups judge frames, one behind the other, by either regulator and within any residence, and what each verdict
/// counts as.
pub fn judges_are_plain()
    ensures { JudgesArePlain }
{}

/// By which places nodes, ports and links go, which ports a link has, and by which names senders and listeners do.
pub fn names_are_plain()
    ensures { NamesArePlain }
{}

/// What ports see of senders, which rows cover their place and which are the least, and what is told of each listener
/// and of all.
pub fn bounds_are_plain()
    ensures { BoundsArePlain }
{}

/// How requests are answered one behind the other, the first of the network as it was declared, and why one is denied.
pub fn requests_are_plain()
    ensures { RequestsArePlain }
{}

/// What a bridge is told of each place of a sender's ports, and in which order.
pub fn settings_are_plain()
    ensures { SettingsArePlain }
{}

/// What comes of a frame once at each port, and is counted once for each listener; and what a network with narrowed
/// bursts has as it was.
pub fn runs_are_plain()
    ensures { RunsArePlain }
{}

/// Which numbers the constants of networks, runs and made releases are that definitions name.
pub fn constants_are_plain()
    ensures { ConstantsArePlain }
{}

/// Which frame of a schedule is the first that breaks something, and what: a size, or a bucket since which frame.
pub fn broken_are_plain()
    ensures { BrokenArePlain }
{}

/// Why rows are refused, in whichever order they stand: which of all that is wrong is told.
pub fn refusals_are_plain()
    ensures { RefusalsArePlain }
{}
