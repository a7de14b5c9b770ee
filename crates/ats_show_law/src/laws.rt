//! What is proved of the text of `show`.

ghost use Rattle.ats_show_law.specs.Laws.{ShowTellsEachListener, ShowTellsRates};

/// A law: what `show` prints of a stream, but for its rates, is one line for each of its listeners, in their order,
/// with the name that each goes by, the classes at the ports of its leg, and these ports.
pub fn show_tells_each_listener()
    ensures { ShowTellsEachListener }
{}

/// A law: behind these there is a line of the stream's rates and bursts or nothing, and nothing where all nodes go by
/// the ideal clock. Of each port that leaves a bridge to which the stream's frames come, the line has the rate and the
/// burst that `settings` tells this bridge, and those that the port sees.
pub fn show_tells_rates()
    ensures { ShowTellsRates }
{}
