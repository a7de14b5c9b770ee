//! Worked delays, bursts and sums of what `witness` finds, with numbers that differ.

ghost use Rattle.ats_witness_examples.specs.Both.{BothAreAnswered};
ghost use Rattle.ats_witness_examples.specs.Bursts.{BurstsAreWorked, FramesAreWorked, TravelsAreWorked};
ghost use Rattle.ats_witness_examples.specs.Delays.{GreatestIsWorked, ListenersAreWorked, WaitIsWorked};
ghost use Rattle.ats_witness_examples.specs.Gap.{GapIsAnswered};
ghost use Rattle.ats_witness_examples.specs.Sums.{SumsAreOwn};

/// The greatest delay of a sender is the longest that one of its frames took which arrived, in picoseconds, and so the
/// worst delay that a summary of the run tells.
pub fn greatest_is_worked()
    ensures { GreatestIsWorked }
{}

/// The greatest delays of a stream for each of its listeners are those of the frames that came to it, and there is none
/// for a listener to which none came.
pub fn listeners_are_worked()
    ensures { ListenersAreWorked }
{}

/// How many longest frames a burst holds whole, up to 40 of them.
pub fn frames_are_worked()
    ensures { FramesAreWorked }
{}

/// What the longest frames of a network take to the ports of their routes, in picoseconds.
pub fn travels_are_worked()
    ensures { TravelsAreWorked }
{}

/// The burst at a port for a stream, where others have a higher, the same or a lower class, where a class falls along
/// the path, where bursts cover several frames, and where senders travel over ports that differ, on branches too.
pub fn bursts_are_worked()
    ensures { BurstsAreWorked }
{}

/// Behind each port a frame of the burst's run waits for all of the port's spread, as in the order `late`.
pub fn wait_is_worked()
    ensures { WaitIsWorked }
{}

/// The sum that is printed beside the delays of a stream for a listener is the sum of its own least bounds along the
/// route there, by the clocks of the network's nodes, in picoseconds, and the one that no found delay exceeds.
pub fn sums_are_own()
    ensures { SumsAreOwn }
{}

/// What is due to `witness`: of a stream whose delay is less than its bound, since a flow is in the way, and of the
/// name of the flow.
pub fn gap_is_answered()
    ensures { GapIsAnswered }
{}

/// What is due to `witness` of a stream with two listeners, where a flow is in the way of the first.
pub fn both_are_answered()
    ensures { BothAreAnswered }
{}
