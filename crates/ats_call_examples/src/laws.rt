//! Worked calls: the bytes of their files, and the answers that are due, one for each status that a command may have.

ghost use Rattle.ats_call_examples.specs.Judged.{AdmitIsAnswered, BoundIsAnswered, CheckIsAnswered, ConformIsAnswered};
ghost use Rattle.ats_call_examples.specs.Judged.{ExplainIsAnswered, ShapeIsAnswered, ShowIsAnswered};
ghost use Rattle.ats_call_examples.specs.Run.{BoundsAreMet, CaptureIsAnswered, GenerateIsAnswered, ReplayIsAnswered};
ghost use Rattle.ats_call_examples.specs.Run.{CaptureBoundsAreMet, FitIsAnswered, RecordIsAnswered};
ghost use Rattle.ats_call_examples.specs.Run.{ReleasesAreAnswered, WitnessIsAnswered, WordsAreAnswered};

/// What is due to `shape`: of a frame that is eligible, and of a bad line.
pub fn shape_is_answered()
    ensures { ShapeIsAnswered }
{}

/// What is due to `show`: of a network, and of bytes that are no TOML.
pub fn show_is_answered()
    ensures { ShowIsAnswered }
{}

/// What is due to `bound`: of a network whose deadline is the sum of its bounds, of one with 1 ns less, and of bytes
/// that are no TOML.
pub fn bound_is_answered()
    ensures { BoundIsAnswered }
{}

/// What is due to `explain`: of that network, of one that is overloaded, and of bytes that are no TOML.
pub fn explain_is_answered()
    ensures { ExplainIsAnswered }
{}

/// What is due to `check`: of the least certificate, of one with a bound 1 ps less, of a file that is none, and of two
/// files with a fault.
pub fn check_is_answered()
    ensures { CheckIsAnswered }
{}

/// What is due to `conform`: of a frame of the longest size that is declared, of one an octet longer, of a file that is
/// no schedule, and of two files with a fault.
pub fn conform_is_answered()
    ensures { ConformIsAnswered }
{}

/// What is due to `admit`: of a stream that is denied and one that is withdrawn, of a network that is late, of a file
/// that makes no requests, and of two files with a fault.
pub fn admit_is_answered()
    ensures { AdmitIsAnswered }
{}

/// What is due to `replay`: of one frame, of a file that is no schedule, and of two files with a fault.
pub fn replay_is_answered()
    ensures { ReplayIsAnswered }
{}

/// What is due to `capture`: of one frame, of a bridge in place of a station, of a file that is no capture, and of two
/// files with a fault.
pub fn capture_is_answered()
    ensures { CaptureIsAnswered }
{}

/// What is due to `generate`: of one frame, of a network without a stream, and of bytes that are no TOML.
pub fn generate_is_answered()
    ensures { GenerateIsAnswered }
{}

/// What is due to `record`: of one frame, at each port of its path, and at a port that sends none; of a word that is
/// the name of no port, of a file that is no schedule, and of two files with a fault.
pub fn record_is_answered()
    ensures { RecordIsAnswered }
{}

/// What is due to `witness`: of two streams that meet, of a word that is the name of no stream, of a network for which
/// no certificate holds, and of bytes that are no TOML.
pub fn witness_is_answered()
    ensures { WitnessIsAnswered }
{}

/// What is due to `releases`: of one frame, of a bridge in place of a station, of a file that is no capture, and of two
/// files with a fault.
pub fn releases_are_answered()
    ensures { ReleasesAreAnswered }
{}

/// What is due to `fit`: of a frame that needs the burst that its stream declares, of frames that need more, of a file
/// that is no schedule, and of two files with a fault.
pub fn fit_is_answered()
    ensures { FitIsAnswered }
{}

/// What is due to words that are no command, whatever is told.
pub fn words_are_answered()
    ensures { WordsAreAnswered }
{}

/// One network, certificate and schedule with which `Done` is due to `check`, `conform` and `replay`, as
/// `replay_keeps_bounds` and `conform_keeps_bounds` of `ats_command_law` ask.
pub fn bounds_are_met()
    ensures { BoundsAreMet }
{}

/// One network, certificate and capture, and the text of `releases` as a schedule, with which `Done` is due to
/// `releases`, `conform`, `check`, `capture` and `replay`, as `releases_keep_bounds` of `ats_command_law` asks.
pub fn capture_bounds_are_met()
    ensures { CaptureBoundsAreMet }
{}
