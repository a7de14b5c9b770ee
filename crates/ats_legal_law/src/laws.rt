//! Legal runs: one behind another, and what they tell of a frame at a port.

ghost use Rattle.ats_legal_law.specs.Crowd.{CrowdsAreLegal};
ghost use Rattle.ats_legal_law.specs.InTurn.{IsOnceOver, KeptInTurn, KeptWhenRepeated, LegalInTurn};
ghost use Rattle.ats_legal_law.specs.InTurn.{LegalWhenRepeated, LongWhenRepeated};
ghost use Rattle.ats_legal_law.specs.Line.{RunsAreOfAnyLength};
ghost use Rattle.ats_legal_law.specs.Once.{FramesAreToldOnce};

/// A law, of runs in which all nodes read true time: where a legal run is over, and the network has rested until each
/// bucket is full again, another legal run may begin, and the two are one legal run; a node that keeps its buckets in
/// both keeps them in the whole. Each run is over at some time.
pub fn runs_go_in_turn()
    ensures legal { LegalInTurn }
    ensures kept { KeptInTurn }
    ensures once_over { IsOnceOver }
{}

/// A law: so a legal run may happen any number of times, and a node that keeps its buckets in it keeps them.
pub fn runs_repeat()
    ensures legal { LegalWhenRepeated }
    ensures kept { KeptWhenRepeated }
    ensures long { LongWhenRepeated }
{}

/// For each number there is a legal run of the line with exactly so many frames, by whose releases the talker keeps its
/// bucket: a legal run may have more frames than may be run.
pub fn runs_are_of_any_length()
    ensures { RunsAreOfAnyLength }
{}

/// For each number there is a legal run of the line with exactly so many frames that are released at once, and wait at
/// their station: a legal run may have any number of frames at one port.
pub fn crowds_are_legal()
    ensures { CrowdsAreLegal }
{}

/// Where each frame makes a journey, as in each legal run, a frame crosses a port at most once, and the port hands it
/// on at most once, however many listeners are behind it.
pub fn frames_are_told_once()
    ensures { FramesAreToldOnce }
{}
