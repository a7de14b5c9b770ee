//! What the words come to that say which runs, peaks, releases and delays are due.

ghost use Rattle.ats_answer_law.specs.AnyClocks.{NoClockIsAsked};
ghost use Rattle.ats_answer_law.specs.PromisedRuns.{PromisedRunsAreMeant};
ghost use Rattle.ats_answer_law.specs.RunMeaning.{FoundAreMeant, MadeAreMeant, OrdersAreMeant};
ghost use Rattle.ats_answer_law.specs.RunMeaning.{PeaksAreMeant, RunsAreMeant};
ghost use Rattle.ats_answer_law.specs.Witnesses.{WitnessesAreMeant};

/// The key and the wait of each order, of any sender, frame and spread.
pub fn orders_are_meant()
    ensures { OrdersAreMeant }
{}

/// The runs whose texts are due are just those by their order that have exactly the releases.
pub fn runs_are_meant()
    ensures { RunsAreMeant }
{}

/// Peaks are a number for each row, which was held at some time of the run, and more at none.
pub fn peaks_are_meant()
    ensures { PeaksAreMeant }
{}

/// Made releases are those of as many frames as are asked for, by time, and of one time as they are made.
pub fn made_are_meant()
    ensures { MadeAreMeant }
{}

/// What is found is a delay for each hop, shown by a run of the burst at its port, and the burst at the first hop with
/// a greatest one.
pub fn found_are_meant()
    ensures { FoundAreMeant }
{}

/// Runs by an order, travels, bursts and made releases are the same words whichever clocks the nodes of a network
/// declare.
pub fn no_clock_is_asked()
    ensures { NoClockIsAsked }
{}

/// A text is due to `witness` just where it writes, for each listener, what the runs of the bursts along the route
/// there show, beside the sum of the least bounds.
pub fn witnesses_are_meant()
    ensures { WitnessesAreMeant }
{}

/// The runs of which `check` and `lrq check` promise something are the legal ones, in which nodes keep their own
/// buckets or spacing; and what sound bounds promise in them, from stations too.
pub fn promised_runs_are_meant()
    ensures { PromisedRunsAreMeant }
{}
