//! Runs of streams with several listeners, written out in full, that are legal or not.

ghost use Rattle.ats_tree_examples.specs.Breaks.{CopiesHaveTheFramesTimes, CopiesKeepTheRules, DiscardsAreForAll};
ghost use Rattle.ats_tree_examples.specs.Breaks.{EachHasOneCopy};
ghost use Rattle.ats_tree_examples.specs.Copies.{BranchesGoByOrder, CopiesAreLegal, CopiesGoByOrder, VerdictsAreOne};
ghost use Rattle.ats_tree_examples.specs.Copies.{WaysAreWorked};

/// A frame and its copies over one bridge and over three; a copy that goes on while the frame waits, and one that waits
/// with it for their group; a frame that counts once against its burst, and frames that are discarded for all listeners
/// behind one bridge, and for none before it.
pub fn copies_are_legal()
    ensures { CopiesAreLegal }
{}

/// By an order a copy goes by the key of its frame at its port, and comes to a bridge by the frame's pace.
pub fn copies_go_by_order()
    ensures { CopiesGoByOrder }
{}

/// At a port that no trunk has, copies go by an order as well. A legal run may send two copies of one stream that tie
/// there in the other order than the trunk's port sends their frames.
pub fn branches_go_by_order()
    ensures { BranchesGoByOrder }
{}

/// The way of a frame to each of four listeners, and that of a frame that is discarded between two branches.
pub fn ways_are_worked()
    ensures { WaysAreWorked }
{}

/// What a frame is judged at the ports that leave one bridge, by the law that it is judged once.
pub fn verdicts_are_one()
    ensures { VerdictsAreOne }
{}

/// Runs with a copy that is told wrongly, each of which breaks one part of a legal run alone: a copy is missing, is
/// there twice, or does not end; it has another arrival or eligibility than its frame; it goes on though the frame is
/// discarded, or is discarded alone, or arrives though it was none; and its port or link does not keep its rule.
pub fn copies_break_alone()
    ensures copies { EachHasOneCopy }
    ensures times { CopiesHaveTheFramesTimes }
    ensures discards { DiscardsAreForAll }
    ensures rules { CopiesKeepTheRules }
{}
