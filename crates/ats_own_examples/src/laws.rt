//! What is bounded, printed, held, found, made and admitted, where frames begin or end at bridges.

ghost use Rattle.ats_own_examples.specs.Asked.{OthersAreAdmitted};
ghost use Rattle.ats_own_examples.specs.Bounds.{BoundsAreWorked};
ghost use Rattle.ats_own_examples.specs.Buffers.{OwnFramesAreHeld};
ghost use Rattle.ats_own_examples.specs.Bursts.{BurstsAreWorked};
ghost use Rattle.ats_own_examples.specs.Captured.{OwnFramesAreCaptured};
ghost use Rattle.ats_own_examples.specs.Made.{AllTakeTurns};
ghost use Rattle.ats_own_examples.specs.Narrowed.{AllKeepOneFrame};
ghost use Rattle.ats_own_examples.specs.Runs.{RunsAreWorked};
ghost use Rattle.ats_own_examples.specs.Stays.{StaysAreExact};
ghost use Rattle.ats_own_examples.specs.Texts.{TextsAreWritten};

use ats_explain::laws::each_stream_adds_up;

/// Bounds and certificates, and why there is none: residence is asked of each port that leads to a bridge, also where
/// no frame goes on from there, and a deadline is one of each listener, also of a bridge.
pub fn bounds_are_worked()
    ensures { BoundsAreWorked }
{}

/// A stay is told of each port that leads to a bridge, with the wait and the residence there, and of no other.
pub fn stays_are_exact()
    ensures { StaysAreExact }
{
    each_stream_adds_up();
}

/// What `show`, `check`, `explain`, `settings` and `witness` print.
pub fn texts_are_written()
    ensures { TextsAreWritten }
{}

/// What `replay` and `generate` print of legal runs, and that a bridge that babbles keeps its buckets as little as a
/// station does.
pub fn runs_are_worked()
    ensures { RunsAreWorked }
{}

/// What ports hold of frames that their bridge sends or that end behind them, and the buffers of these ports.
pub fn own_frames_are_held()
    ensures { OwnFramesAreHeld }
{}

/// Frames of bridges in bursts, those for other streams too, and the delays that are found in their runs.
pub fn bursts_are_worked()
    ensures { BurstsAreWorked }
{}

/// Each stream of a network is narrowed, wherever it begins.
pub fn all_keep_one_frame()
    ensures { AllKeepOneFrame }
{}

/// All streams take turns in `generate`, wherever they begin.
pub fn all_take_turns()
    ensures { AllTakeTurns }
{}

/// What is answered to requests beside streams of bridges, and where such a stream is withdrawn.
pub fn others_are_admitted()
    ensures { OthersAreAdmitted }
{}

/// What the captures of a bridge's port and of the port to it have.
pub fn own_frames_are_captured()
    ensures { OwnFramesAreCaptured }
{}
