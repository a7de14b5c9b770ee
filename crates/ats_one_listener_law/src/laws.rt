//! What is proved of streams with one listener: their texts, and the ports of their frames.

ghost use Rattle.ats_one_listener_law.specs.Laws.{CheckTellsOneSum, ExplainTellsOneMargin, GenerateTellsOneLine};
ghost use Rattle.ats_one_listener_law.specs.Laws.{ReplayTellsOneWay, ShowTellsOneLine};
ghost use Rattle.ats_one_listener_law.specs.Ports.{OneListenerHasFewPorts};

/// A law: where a stream has no branch, what `check` prints of it is a line for each of its ports,
/// with the bound there, and its name with the sum of these bounds along all its ports.
pub fn check_tells_one_sum()
    ensures { CheckTellsOneSum }
{}

/// A law: what `explain` prints of it is its line, with the sum along all its ports, its deadline
/// and the slack, and a line for each of its ports.
pub fn explain_tells_one_margin()
    ensures { ExplainTellsOneMargin }
{}

/// A law: what `show` prints of it, but for its rates, is one line, with its name, all its classes and all its ports.
pub fn show_tells_one_line()
    ensures { ShowTellsOneLine }
{}

/// A law: where no stream has a branch, what `replay` prints of a run is for each frame its line, one for each record,
/// with the port at its place among all ports, and one for its end; and the numbers of frames, each counted once.
pub fn replay_tells_one_way()
    ensures { ReplayTellsOneWay }
{}

/// A law: what `generate` prints of it is one line for each sender, with these numbers of its frames and the longest
/// time of one, and for a stream the sum that stands at its own number; and the numbers of all frames.
pub fn generate_tells_one_line()
    ensures { GenerateTellsOneLine }
{}

/// A law: the frames of releases that may be run on it have no more ports together than those of a run may have, where
/// its routes have at most 16 ports.
pub fn one_listener_has_few_ports()
    ensures { OneListenerHasFewPorts }
{}
