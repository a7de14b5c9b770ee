//! What each answer that is due to a command says of the bytes that are told under the names of its files.

ghost use Rattle.ats_answer_law.specs.Accepted.{PromisesAreSound};
ghost use Rattle.ats_answer_law.specs.Concluded.{ConclusionsAreMeant};
ghost use Rattle.ats_answer_law.specs.ConclusionsShown.{ConclusionsAreShown};
ghost use Rattle.ats_answer_law.specs.Due.{AdmitIsDue, BoundIsDue, CaptureIsDue, CheckIsDue, ConformIsDue};
ghost use Rattle.ats_answer_law.specs.Due.{ExplainIsDue, GenerateIsDue, ReplayIsDue, ShapeIsDue, ShowIsDue};
ghost use Rattle.ats_answer_law.specs.Due.{BuffersAreDue, LrqBoundIsDue, LrqCheckIsDue, LrqShapeIsDue, PeaksAreDue};
ghost use Rattle.ats_answer_law.specs.Due.{FitIsDue, RecordIsDue, ReleasesAreDue, SettingsAreDue, WitnessIsDue};
ghost use Rattle.ats_answer_law.specs.Due.{WordsAreDue};
ghost use Rattle.ats_answer_law.specs.Faults.{FaultsAreTold};
ghost use Rattle.ats_answer_law.specs.JustOne.{JustOneIsLeft};
ghost use Rattle.ats_answer_law.specs.Meant.{NothingLessIsMeant};
ghost use Rattle.ats_answer_law.specs.Networks.{NetworksAreMeant};
ghost use Rattle.ats_answer_law.specs.NoneMade.{FaultsLeaveNone, NoneAreMadeForFaults};
ghost use Rattle.ats_answer_law.specs.Reached.{LaterFilesWait};
ghost use Rattle.ats_answer_law.specs.Replied.{RepliesAreMeant};
ghost use Rattle.ats_answer_law.specs.Runs.{PeaksAreHeld, RunsKeepTheirOrder};

use ats_command_law::laws::{
    what_admit_answers, what_bound_answers, what_buffers_answers, what_capture_answers,
    what_check_answers, what_conform_answers, what_explain_answers, what_fit_answers,
    what_generate_answers, what_lrq_bound_answers, what_lrq_check_answers, what_lrq_shape_answers,
    what_peaks_answer, what_record_answers, what_releases_answers, what_replay_answers,
    what_settings_answers, what_witness_answers,
};

/// Each answer that is due to `shape`, by its status. `Done`: the bytes that are told declare a shape, and the text
/// gives the verdict on each of its frames. `Input`: they declare none. No other status is due.
pub fn shape_is_due()
    ensures { ShapeIsDue }
{}

/// Each answer that is due to `show`, by its status. `Done`: the bytes that are told declare a network, and the text
/// gives its ports, streams and flows. `Input`: they declare none. No other status is due.
pub fn show_is_due()
    ensures { ShowIsDue }
{}

/// Each answer that is due to `bound` says of the bytes that are told what `what_bound_answers` has.
pub fn bound_is_due()
    ensures { BoundIsDue }
{
    what_bound_answers();
}

/// Each answer that is due to `explain` says of the bytes that are told what `what_explain_answers` has.
pub fn explain_is_due()
    ensures { ExplainIsDue }
{
    what_explain_answers();
}

/// Each answer that is due to `check` says of the bytes that are told under both names what `what_check_answers` has.
pub fn check_is_due()
    ensures { CheckIsDue }
{
    what_check_answers();
}

/// Each answer that is due to `conform` says of the bytes that are told under both names what `what_conform_answers`
/// has.
pub fn conform_is_due()
    ensures { ConformIsDue }
{
    what_conform_answers();
}

/// Each answer that is due to `admit` says of the bytes that are told under both names what `what_admit_answers` has.
pub fn admit_is_due()
    ensures { AdmitIsDue }
{
    what_admit_answers();
}

/// Each answer that is due to `replay` says of the bytes that are told under both names what `what_replay_answers`
/// has.
pub fn replay_is_due()
    ensures { ReplayIsDue }
{
    what_replay_answers();
}

/// Each answer that is due to `capture` says of the bytes that are told under both names what `what_capture_answers`
/// has.
pub fn capture_is_due()
    ensures { CaptureIsDue }
{
    what_capture_answers();
}

/// Each answer that is due to `generate` says of the bytes that are told what `what_generate_answers` has.
pub fn generate_is_due()
    ensures { GenerateIsDue }
{
    what_generate_answers();
}

/// Each answer that is due to `settings` says of the bytes that are told what `what_settings_answers` has.
pub fn settings_are_due()
    ensures { SettingsAreDue }
{
    what_settings_answers();
}

/// Each answer that is due to `buffers` with a certificate says of the bytes that are told under both names what
/// `what_buffers_answers` has.
pub fn buffers_are_due()
    ensures { BuffersAreDue }
{
    what_buffers_answers();
}

/// Each answer that is due to `buffers` with a schedule says of the bytes that are told under the three names what
/// `what_peaks_answer` has.
pub fn peaks_are_due()
    ensures { PeaksAreDue }
{
    what_peaks_answer();
}

/// Each answer that is due to `lrq shape` says of the bytes that are told what `what_lrq_shape_answers` has.
pub fn lrq_shape_is_due()
    ensures { LrqShapeIsDue }
{
    what_lrq_shape_answers();
}

/// Each answer that is due to `lrq bound` says of the bytes that are told what `what_lrq_bound_answers` has.
pub fn lrq_bound_is_due()
    ensures { LrqBoundIsDue }
{
    what_lrq_bound_answers();
}

/// Each answer that is due to `lrq check` says of the bytes that are told under both names what
/// `what_lrq_check_answers` has.
pub fn lrq_check_is_due()
    ensures { LrqCheckIsDue }
{
    what_lrq_check_answers();
}

/// Each answer that is due to `record` says of the bytes that are told under both names what `what_record_answers` has.
pub fn record_is_due()
    ensures { RecordIsDue }
{
    what_record_answers();
}

/// Each answer that is due to `witness` says of the bytes that are told what `what_witness_answers` has.
pub fn witness_is_due()
    ensures { WitnessIsDue }
{
    what_witness_answers();
}

/// Each answer that is due to `releases` says of the bytes that are told under both names what `what_releases_answers`
/// has.
pub fn releases_are_due()
    ensures { ReleasesAreDue }
{
    what_releases_answers();
}

/// Each answer that is due to `fit` says of the bytes that are told under both names what `what_fit_answers` has.
pub fn fit_is_due()
    ensures { FitIsDue }
{
    what_fit_answers();
}

/// To words that are no command one answer is due: `Words`, with the line `words`.
pub fn words_are_due()
    ensures { WordsAreDue }
{}

/// Where `Input` is due, the text is `input FILE FAULT`: FILE is the first of the command's files that does not declare
/// what it should, where those before it do, and FAULT is `too-long` of more bytes than it may have, else the words of
/// its first fault.
pub fn faults_are_told()
    ensures { FaultsAreTold }
{}

/// The run whose text is due to `replay`, `capture`, `buffers` or `record` is one by the tie and the pace of the order
/// that is asked for, and to `generate` one by those of `early`. A delay that `witness` prints is found in one in which
/// the stream's frames go last of those that tie, and frames arrive behind ports as late as they may.
pub fn runs_keep_their_order()
    ensures { RunsKeepTheirOrder }
{}

/// What `buffers` prints as a row's peak was held of the row's class at its port at some time of the run, and more at
/// none; it stands behind the row's buffer. It is at most this buffer where the talkers of that class at that port keep
/// their buckets, and the bridges that the port, or the port before it on their streams' ways, leaves.
pub fn peaks_are_held()
    ensures { PeaksAreHeld }
{}

/// What `check` and `lrq check` promise of the text that they are done with: its bounds are sound, frames are in time
/// by them, and the text gives them; the first by the groups of Asynchronous Traffic Shaping and for talkers that keep
/// their buckets, the second by length-rate-quotient regulators and for spaced talkers.
pub fn promises_are_sound()
    ensures { PromisesAreSound }
{}

/// A command comes to its second file, or its third, only where the bytes that are told under the names before it have
/// no fault.
pub fn later_files_wait()
    ensures { LaterFilesWait }
{}

/// Where `generate` makes no releases, its fault says why: the network has no stream; or one of the releases that would
/// be made is later than those of a run may be, or their frames have more ports together than those of a run may have.
pub fn none_are_made_for_faults()
    ensures { NoneAreMadeForFaults }
{}

/// Just where there is such a fault `generate` is refused, with its words, and else the network is run.
pub fn faults_leave_none()
    ensures { FaultsLeaveNone }
{}

/// What the words come to in which the laws of `ats_command_law` say what follows: of delays, each frame is served and
/// in time whose own talker and bridges keep their buckets, and so for all, for the least bounds, and for each worst
/// delay; of bridges, how much room there is, and what those judge alike that are set alike. And the outside goes on
/// where what it tells stays and no count of faults falls, a fault came at a file that the words of the command name,
/// and all is calm exactly where none came at these.
pub fn nothing_less_is_meant()
    ensures { NothingLessIsMeant }
{}

/// Of which commands `one_answer_is_due` speaks: of all but six whatever is told, and of these where they come to
/// nothing of which there may be several texts. An answer is due, and each that is due is this one.
pub fn just_one_is_left()
    ensures { JustOneIsLeft }
{}

/// What words come to that the laws of `ats_command_law` conclude, and no law asks for: that a burst is just enough,
/// and each stream has one; why no releases are made; that the texts of `check`, `replay` and `generate` are those of a
/// network, rows, releases and a run, whose delays are within what is printed; that buffers are room for all that a
/// port holds; that a network is soundly bounded; and that rows are sound, and frames in time by them, by the clocks of
/// nodes. Each part is written out.
pub fn conclusions_are_meant()
    ensures { ConclusionsAreMeant }
{}

/// The same of closed things: what those words say of bursts, releases, buffers and bounds, each of something of which
/// it is so, and beside it of others, with one thing changed, of which it is not.
pub fn conclusions_are_shown()
    ensures { ConclusionsAreShown }
{}

/// What each answer to a request says of the network before it and of the one after it, and an answer to `bound` of the
/// bytes of its file, part by part; and which of them never come.
pub fn replies_are_meant()
    ensures { RepliesAreMeant }
{}

/// What words come to that say what a network is: where routes begin at stations, and where they also end there; where
/// all clocks are ideal, as in files of formats 1 and 2; and of each network the limits on its numbers, and that no two
/// streams have one identity.
pub fn networks_are_meant()
    ensures { NetworksAreMeant }
{}
