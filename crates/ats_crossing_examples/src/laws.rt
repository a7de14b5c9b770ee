//! What of a run holds of all frames of a port: those that go on, those that end at the bridge behind it, those that
//! this bridge discards, and those that the bridge before it sends itself.

ghost use Rattle.ats_crossing_examples.specs.Beside.{OwnFramesAreAmongOthers};
ghost use Rattle.ats_crossing_examples.specs.Discards.{DiscardedKeepPaces};
ghost use Rattle.ats_crossing_examples.specs.Ends.{EndsKeepPaces};
ghost use Rattle.ats_crossing_examples.specs.Sizes.{OwnFramesHaveAnySize};

/// A frame that ends at a bridge with a processing interval arrives by the pace, and in order with those that go on;
/// so does a frame that a bridge sends itself.
pub fn ends_keep_paces()
    ensures { EndsKeepPaces }
{}

/// A frame that a bridge with a processing interval discards has arrived there by the pace, and holds up the next one.
pub fn discarded_keep_paces()
    ensures { DiscardedKeepPaces }
{}

/// A bridge sends its own frames at their releases, whichever their sizes; the next bridge discards those of an
/// undeclared one.
pub fn own_frames_have_any_size()
    ensures { OwnFramesHaveAnySize }
{}

/// Behind a port one group has a bridge's own frames and those that pass through the bridge, where they are of one
/// class; and at the port a key breaks their ties.
pub fn own_frames_are_among_others()
    ensures { OwnFramesAreAmongOthers }
{}
