//! What is proved of the answers that are due, for all words and bytes.

ghost use Rattle.ats_command_law.specs.AdmitMeaning.{AdmitMeans};
ghost use Rattle.ats_command_law.specs.BufferMeaning.{BuffersMean, PeaksMean};
ghost use Rattle.ats_command_law.specs.CaptureBounds.{CaptureKeepsBounds};
ghost use Rattle.ats_command_law.specs.CaptureMeaning.{CaptureMeans};
ghost use Rattle.ats_command_law.specs.ConformBounds.{ConformKeepsBounds};
ghost use Rattle.ats_command_law.specs.ConformMeaning.{ConformMeans};
ghost use Rattle.ats_command_law.specs.ExplainMeaning.{ExplainMeans};
ghost use Rattle.ats_command_law.specs.FitMeaning.{FitAgreesWithConform, FitMeans};
ghost use Rattle.ats_command_law.specs.GenerateMeaning.{GenerateMeans, PrintedWorstIsWithin};
ghost use Rattle.ats_command_law.specs.Laws.{AcceptedTextIsSound, OneAnswerIsDue, OneStatusIsDue};
ghost use Rattle.ats_command_law.specs.Laws.{PrintedBoundsAreSound};
ghost use Rattle.ats_command_law.specs.LrqMeaning.{LrqBoundMeans, LrqCheckMeans, LrqShapeMeans};
ghost use Rattle.ats_command_law.specs.Meaning.{BoundMeans, CheckMeans};
ghost use Rattle.ats_command_law.specs.RecordMeaning.{RecordMeans};
ghost use Rattle.ats_command_law.specs.ReleasesBounds.{ReleasedIsScheduled, ReleasesKeepBounds};
ghost use Rattle.ats_command_law.specs.ReleasesMeaning.{ReleasesMean};
ghost use Rattle.ats_command_law.specs.ReplayMeaning.{ReplayKeepsBounds, ReplayMeans};
ghost use Rattle.ats_command_law.specs.SettingsMeaning.{SettingsMean};
ghost use Rattle.ats_command_law.specs.WitnessMeaning.{WitnessMeans};

use ats_explain::laws::{clear_where_one_holds, each_stream_adds_up};
use ats_fit::laws::{least_burst_exists, measured_is_one, none_over_is_kept};

/// For all words, and all bytes told under the names of their files, just one answer is due, except to `replay`,
/// `capture` and `record` where no file has a fault and, for the last two, a station or a port has the name, to
/// `generate` where releases are made, to `buffers` with a schedule where no file has a fault and the certificate
/// holds, and to `witness` where a stream has the name and some certificate holds: these may print what came of any run
/// in their order.
pub fn one_answer_is_due()
    ensures { OneAnswerIsDue }
{
    least_burst_exists();
    measured_is_one();
}

/// For all words and bytes, all answers that are due have one status.
pub fn one_status_is_due()
    ensures { OneStatusIsDue }
{}

/// What each answer to `bound` means, by its status. `Done`: the file declares a network, and the text writes its least
/// certificate, which holds and is sound, and by which each frame of a talker that keeps its buckets arrives at each of
/// its stream's listeners within the sum for the listener and the deadline. `Refused`: it declares a network for which
/// no certificate holds, and the text gives the first reason against it. `Input`: it declares none. No other status
/// comes.
pub fn what_bound_answers()
    ensures { BoundMeans }
{}

/// What each answer to `explain` means, by its status. `Done`: the file declares a network of which no port and class
/// is overloaded, and the text gives the parts of the least bounds, each of which is what it stands for, and which add
/// up at each hop to the bound and along each route to the sum; no stream is late and no frame may have to stay too
/// long exactly where some certificate holds. `Refused`: it declares a network with an overload, of which the text
/// names the first, and no certificate holds. `Input`: it declares none. No other status comes.
pub fn what_explain_answers()
    ensures { ExplainMeans }
{
    each_stream_adds_up();
    clear_where_one_holds();
}

/// What each answer to `check` means, by its status. `Done`: the files declare a network and rows that hold for it and
/// are sound, by which each frame of a talker that keeps its buckets arrives at each of its stream's listeners within
/// the sum for the listener and the deadline, and the text gives the bounds and sums of these rows. `Refused`: they
/// declare a network and rows that do not hold for it, and the text gives the first refusal of these rows. `Input`: one
/// of them does not declare what it should. No other status comes.
pub fn what_check_answers()
    ensures { CheckMeans }
{}

/// What each answer to `settings` means, by its status. `Done`: the file declares a network, and the text writes its
/// settings, the only ones that it has. Each is true of the network. They are all that a bridge has to be told: each
/// network of the same topology that has them judges alike every list of frames that comes to a group of a bridge, and
/// the size of each frame, of senders that they name there and no shorter than is declared. `Input`: it declares none.
/// No other status comes.
pub fn what_settings_answers()
    ensures { SettingsMean }
{}

/// What each answer to `buffers NET CERT` means, by its status. `Done`: the files declare a network and rows that hold
/// for it, and the text gives the buffer of each row. In each legal run, at every time, the occupancy of each port and
/// class of streams is at most its buffer, and so that of a row's port and class at most the number that is printed,
/// where each node keeps its buckets at which a stream with that class there begins, and each bridge that the port, or
/// the port before it on that stream's routes, leaves. Any other status and its text say what they say where `check`
/// answers so.
pub fn what_buffers_answers()
    ensures { BuffersMean }
{}

/// What each answer to `buffers NET CERT SCHEDULE ORDER` means, by its status. `Done`: the files declare a network,
/// rows that hold for it, of whose buffers the same is true, and releases; and the text gives the buffer of each row
/// and beside it the peak of its port and class, over all times, in a legal run of this network, by the tie and the
/// pace of the order, with exactly these releases. A peak is at most its buffer, where those
/// nodes keep their buckets. `Refused`: they declare a network, rows that do not hold for it, and
/// releases, and the text gives the first refusal of these rows. `Input`: one of them does not declare what it should.
/// No other status comes.
pub fn what_peaks_answer()
    ensures { PeaksMean }
{}

/// What each answer to `conform` means, by its status. `Done`: the files declare a network and releases, by which every
/// node keeps its buckets, and the text gives their number. `Refused`: they declare a network and releases, by which
/// some node does not keep its buckets, and the text names the first frame that breaks what its sender declares, and
/// how. `Input`: one of them does not declare what it should. No other status comes.
pub fn what_conform_answers()
    ensures { ConformMeans }
{}

/// What each answer to `admit` means, by its status. `Done`: the files declare a network and make requests; for the
/// network as it is, and after each request, the least certificate holds and is sound, and by it each frame of a talker
/// that keeps its buckets arrives at each of its stream's listeners within the sum for the listener and the deadline;
/// and the text gives the answers, one to each request, and the number of streams at the end. A stream that is admitted
/// is the one asked for, in the printed class at each of its ports, beside all that was there; the printed sum is that
/// of its least bounds. Where the lowest class was asked for, there is a first reason against the network with it in
/// each lower class. A stream that is withdrawn is gone, and it alone. A denial changes nothing, and its cause holds: a
/// printed reason is the first against the network with the stream, for `no-class` in each class. `Refused`: they
/// declare a network, for which no certificate holds, and make requests, and the text gives the first reason against
/// the network. `Input`: one of them does not declare what it should. No other status comes.
pub fn what_admit_answers()
    ensures { AdmitMeans }
{}

/// What each answer to `replay` means, by its status. `Done`: the files declare a network and releases, and the text
/// gives every journey of a legal run of this network, by the tie and the pace of the order, with exactly these
/// releases. `Input`: one of them does not declare what it should. No other status comes.
pub fn what_replay_answers()
    ensures { ReplayMeans }
{}

/// What each answer to `capture` means, by its status. `Done`: the files declare a network and a capture, of which
/// releases of the station with this name come, and the text gives every journey of a legal run of this network, by the
/// tie and the pace of the order, with exactly these releases, and the counts of the records. `Refused`: the first
/// declares a network in which no station has this name. `Input`: one of them does not declare what it should. No other
/// status comes.
pub fn what_capture_answers()
    ensures { CaptureMeans }
{}

/// What each answer to `releases` means, by its status. `Done`: the files declare a network and a capture, of which
/// releases of the station with this name come, which may be run on the network; the text is their schedule, and as
/// that of a file it declares just these over the network. `Refused`: the first declares a network in which no station
/// has this name. `Input`: one of them does not declare what it should. No other status comes.
pub fn what_releases_answers()
    ensures { ReleasesMean }
{}

/// Where `Done` is due to `releases`, and its text is told under a name: to each command that reads the network and a
/// schedule of this name, the schedule is the releases of the capture. So what `conform` or `fit` says of it, it says
/// of the capture.
pub fn released_is_scheduled()
    ensures { ReleasedIsScheduled }
{}

/// Where `Done` is due to `releases`, to `conform` of its text, to `check` of a certificate, and to `capture` of the
/// same capture or to `replay` of that text, for one network: by the releases every node keeps its buckets, and each
/// frame of each stream is, in the run that the last prints and on its way to each listener, never discarded, eligible
/// at each next hop within the bound that `check` prints for the hop before, and arrives there within the sum that is
/// printed for the listener and within the stream's deadline.
pub fn releases_keep_bounds()
    ensures { ReleasesKeepBounds }
{}

/// What each answer to `fit` means, by its status. `Done`: the files declare a network and releases, and the text gives
/// for each stream and then each flow, in order, how many releases it has, the least and the greatest of their octets,
/// and for a stream the least burst: with it the stream's releases conform to its declared rate, and with no bit less
/// do they. The number of senders that are over what they declare is 0 exactly where every node keeps its buckets.
/// `Input`: one of the files does not declare what it should. No other status comes.
pub fn what_fit_answers()
    ensures { FitMeans }
{
    none_over_is_kept();
}

/// Where `Done` is due to `fit`, it tells of no sender that is over what it declares exactly where `Done` is due to
/// `conform` of the same files.
pub fn fit_agrees_with_conform()
    ensures { FitAgreesWithConform }
{
    none_over_is_kept();
}

/// What each answer to `record` means, by its status. `Done`: the files declare a network, in which a port has this
/// name, and releases, and the bytes are the capture of the port in a legal run of the network, by the tie and the pace
/// of the order, with exactly these releases. What the port sent is read back of them: one record for each
/// transmission, in the order in which they started, with the nanosecond of its start, the octets of its frame, and
/// what identifies its stream. `Refused`: the first declares a network, in which no port has this name. `Input`: one of
/// them does not declare what it should. No other status comes.
pub fn what_record_answers()
    ensures { RecordMeans }
{}

/// What each answer to `witness` means, by its status. `Done`: the file declares a network, in which a stream has this
/// name, and for which the least certificate holds. The text gives for each listener of the stream a delay for each
/// port of the route there, the greatest for this listener in a run of the burst at the port, and the burst of the
/// first port with a greatest one. Each of the delays can happen: in a legal run in which every node keeps its
/// buckets a frame of the stream takes just so long to this listener. None is above the sum of the stream's least
/// bounds along the route, which the text gives too. `Refused`: it declares a network, in which no stream has this
/// name, or for which no certificate holds, and the text says which, with the first reason. `Input`: it declares none.
/// No other status comes.
pub fn what_witness_answers()
    ensures { WitnessMeans }
{}

/// What each answer to `generate` means, by its status. `Done`: the file declares a network, and the text sums up a
/// legal run, in the order `early`, with exactly the releases that are made from the seed, by which every node keeps
/// its buckets; where some certificate of the network holds, each delay of a stream to each of its listeners in this
/// run is within the least bounds, whose sums the text gives, and so is each printed worst delay within the bound
/// beside it. `Refused`: it declares a network for which no releases are made, and the text says why. `Input`: it
/// declares none. No other status comes.
pub fn what_generate_answers()
    ensures { GenerateMeans }
{}

/// Where `Done` is due to `check` of a certificate and to `replay` of a schedule for one network: each frame of a
/// stream whose talker keeps its buckets in this schedule, as the bridges on the way do, is, in the run that `replay`
/// prints and on its way to each listener, never discarded, eligible at each next hop within the bound that `check`
/// prints for the hop before, and arrives there within the sum that is printed for the listener and within the stream's
/// deadline.
pub fn replay_keeps_bounds()
    ensures { ReplayKeepsBounds }
{}

/// Where `Done` is due to `conform` of a schedule, to `check` of a certificate and to `replay` of the schedule for one
/// network: by the schedule every node keeps its buckets, and each frame of each stream is, in the run that `replay`
/// prints and on its way to each listener, never discarded, eligible at each next hop within the bound that `check`
/// prints for the hop before, and arrives there within the sum that is printed for the listener and within the stream's
/// deadline.
pub fn conform_keeps_bounds()
    ensures { ConformKeepsBounds }
{}

/// What is printed is what is sound: the lines of the stream with a number give, for each of its listeners, at each
/// port of the leg the bound of which `IsSound` speaks, and the sum of these bounds along the route.
pub fn printed_bounds_are_sound()
    ensures { PrintedBoundsAreSound }
{}

/// So is the whole text of an accepted certificate: for each stream, in order, such lines by the bounds of which
/// `IsSound` speaks of the stream with this number, and then `accepted` and the number of streams.
pub fn accepted_text_is_sound()
    ensures { AcceptedTextIsSound }
{}

/// Let `Done` be due to `check` of a certificate and to `capture` at a station, for one network. Take the run that
/// `capture` prints, and a frame of a stream whose talker keeps its buckets in the releases of the capture. On its way
/// to each listener it is never discarded, is eligible at each next hop within the bound that `check` prints for the
/// hop before, and arrives there within the sum that is printed for the listener and the deadline.
pub fn capture_keeps_bounds()
    ensures { CaptureKeepsBounds }
{}

/// In each legal run with releases by which every node keeps its buckets, what `generate` prints of a listener of a
/// sender as its worst delay is at most what it prints as its bound, where it prints one.
pub fn printed_worst_is_within()
    ensures { PrintedWorstIsWithin }
{}

/// What each answer to `lrq shape` means, by its status. `Done`: the file declares a shape, and the text gives the
/// verdicts of one length-rate-quotient regulator, whose members are its streams. What is eligible of each stream
/// conforms to that stream's rate and the wire bits of its longest frame, whatever the others send. `Input`: it
/// declares none. No other status comes.
pub fn what_lrq_shape_answers()
    ensures { LrqShapeMeans }
{}

/// What each answer to `lrq bound` means, by its status. `Done`: the file declares a network, and the text writes the
/// least certificate of the network with narrowed bursts, which holds for that. It is sound for length-rate-quotient
/// regulators and spaced talkers, and by it each frame of a spaced talker arrives at each of its stream's listeners
/// within the sum for the listener and the deadline, in each legal run of the network as it is declared. `Refused`: it
/// declares a network for which no certificate holds with narrowed bursts, and the text gives the first reason against
/// that. `Input`: it declares none. No other status comes.
pub fn what_lrq_bound_answers()
    ensures { LrqBoundMeans }
{}

/// What each answer to `lrq check` means, by its status. `Done`: the files declare a network and rows that hold with
/// narrowed bursts. These are sound for length-rate-quotient regulators and spaced talkers, and by them each frame of a
/// spaced talker arrives at each of its stream's listeners within the sum for the listener and the deadline, in each
/// legal run of the network as it is declared; the text gives their bounds and sums. `Refused`: they declare a network
/// and rows that do not hold with narrowed bursts, and the text gives the first refusal of these rows. `Input`: one of
/// them does not declare what it should. No other status comes.
pub fn what_lrq_check_answers()
    ensures { LrqCheckMeans }
{}
