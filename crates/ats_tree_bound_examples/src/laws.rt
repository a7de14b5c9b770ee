//! Deadlines, refusals and texts of streams with several listeners, worked out.

ghost use Rattle.ats_tree_bound_examples.specs.InTime.{DeadlinesAreForEach};
ghost use Rattle.ats_tree_bound_examples.specs.Explained.{TotalsAreOfEach};
ghost use Rattle.ats_tree_bound_examples.specs.FileOrder.{AllIsInFileOrder};
ghost use Rattle.ats_tree_bound_examples.specs.Promised.{FramesAreForEach, SoundIsForEach};
ghost use Rattle.ats_tree_bound_examples.specs.RateTexts.{RatesAreShown};
ghost use Rattle.ats_tree_bound_examples.specs.RunTexts.{RunsAreWritten};
ghost use Rattle.ats_tree_bound_examples.specs.Refusals.{RefusalsNameListeners};
ghost use Rattle.ats_tree_bound_examples.specs.SetAlike.{SetAlikeIsMet};
ghost use Rattle.ats_tree_bound_examples.specs.Settings.{BridgesAreTold};
ghost use Rattle.ats_tree_bound_examples.specs.Texts.{BoundsAreWritten, ExplanationIsWritten, LegsAreShown};
ghost use Rattle.ats_tree_bound_examples.specs.Texts.{ReasonsAreWritten};

/// A frame is in time where it is so at each listener: not where it is late at one alone by its sum, or at some by its
/// deadline.
pub fn deadlines_are_for_each()
    ensures { DeadlinesAreForEach }
{}

/// That all frames are in time says so of each listener of a frame, by any rows.
pub fn frames_are_for_each()
    ensures { FramesAreForEach }
{}

/// That rows are sound says of each frame whose own talker keeps its buckets that it is served, and of each that it is
/// contained, on its way to each listener.
pub fn sound_is_for_each()
    ensures { SoundIsForEach }
{}

/// Rows are refused that count a stream for each of its listeners, that leave out the port of one, or by which a stream
/// is late for one; and this is named as the first of its stream.
pub fn refusals_name_listeners()
    ensures { RefusalsNameListeners }
{}

/// A hop of a branch counts once in the totals, and not for each listener behind it; the tightest listener and the
/// first that is late may be a further one of its stream, before the first one of the next.
pub fn totals_are_of_each()
    ensures { TotalsAreOfEach }
{}

/// How reasons and refusals name a listener.
pub fn reasons_are_written()
    ensures { ReasonsAreWritten }
{}

/// What `check` prints of rows that hold: each listener's own hops, and its sum along the whole route.
pub fn bounds_are_written()
    ensures { BoundsAreWritten }
{}

/// What `show` prints: the hops of each leg, with their classes.
pub fn legs_are_shown()
    ensures { LegsAreShown }
{}

/// What `show` prints where clocks change rates and bursts: a line `rates` behind the legs of a stream, with the ports
/// in their order.
pub fn rates_are_shown()
    ensures { RatesAreShown }
{}

/// What `explain` prints where two of four listeners are late, in the order of legs.
pub fn explanation_is_written()
    ensures { ExplanationIsWritten }
{}

/// What bridges are told: a setting for each port by which frames go on, with one scheduler for all of a bridge.
pub fn bridges_are_told()
    ensures { BridgesAreTold }
{}

/// A law, with worked cases: `show` and `explain` tell streams and flows in the order of the file, whatever their names
/// are; each listener that is late counts, and the first of the tightest is told; and settings are by bridge, port,
/// class and sender, each by its number.
pub fn all_is_in_file_order()
    ensures { AllIsInFileOrder }
{}

/// What the laws of settings ask can be met by two networks that differ, with frames that are longer than is declared,
/// and at ports of branches.
pub fn set_alike_is_met()
    ensures { SetAlikeIsMet }
{}

/// What `replay` and `generate` print of runs: the lines of each copy, and for each listener its own counts.
pub fn runs_are_written()
    ensures { RunsAreWritten }
{}
