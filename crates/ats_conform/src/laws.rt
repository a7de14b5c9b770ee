//! What is proved of the definitions, for all releases.

ghost use Rattle.ats_conform.specs.Laws.{BrokenIsOne, KeepOrBreak, OneBreaksAll};

/// Where the first releases break what a sender declares, some node does not keep its buckets by all of them
/// either, whatever comes after. So `conform` answers `Ok` exactly where every node does.
pub fn one_breaks_all()
    ensures { OneBreaksAll }
{}

/// `conform` can name one fault alone: the first frame that breaks what its sender declares, how it does, and the
/// frame from which on it exceeds the bucket by most.
pub fn broken_is_one()
    ensures { BrokenIsOne }
{}

/// By releases that may be run every node keeps its buckets, or there is a first frame that breaks what its sender
/// declares, and how.
pub fn keep_or_break()
    ensures { KeepOrBreak }
{}
