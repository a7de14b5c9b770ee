//! Worked calls: the bytes of their files, and the answers that are due.

ghost use Rattle.ats_answer_examples.specs.Captured.{CapturesAreMeant};
ghost use Rattle.ats_answer_examples.specs.Keeping.{KeepingIsMeant};
ghost use Rattle.ats_answer_examples.specs.Metered.{MeteringIsMeant};
ghost use Rattle.ats_answer_examples.specs.Premises.{PremisesAreShown};
ghost use Rattle.ats_answer_examples.specs.Printed.{TextsAreShown};
ghost use Rattle.ats_answer_examples.specs.Regulated.{LrqBoundIsAnswered, LrqCheckIsAnswered, LrqShapeIsAnswered};
ghost use Rattle.ats_answer_examples.specs.Replied.{RepliesAreShown};
ghost use Rattle.ats_answer_examples.specs.RunsDue.{RunsAreDue};
ghost use Rattle.ats_answer_examples.specs.Told.{BuffersIsAnswered, PeaksIsAnswered, SettingsIsAnswered};
ghost use Rattle.ats_answer_examples.specs.Words.{WordsAreNone};

/// What is due to `settings`: of a network with one stream over a bridge, and of bytes that are no TOML.
pub fn settings_is_answered()
    ensures { SettingsIsAnswered }
{}

/// What is due to `buffers` with a certificate: of the least one, of one with a bound 1 ps less, of a file that is
/// none, and of two files with a fault.
pub fn buffers_is_answered()
    ensures { BuffersIsAnswered }
{}

/// What is due to `buffers` with a schedule: of two frames that a bridge holds together and a station does not; of a
/// certificate that is refused; and of one file with a fault, of two and of three, of which the first is told.
pub fn peaks_is_answered()
    ensures { PeaksIsAnswered }
{}

/// What is due to `lrq shape`: of two frames of which the second waits, and of a bad line.
pub fn lrq_shape_is_answered()
    ensures { LrqShapeIsAnswered }
{}

/// What is due to `lrq bound`: of a network whose deadline is the sum of its bounds with narrowed bursts, and is less
/// with the declared ones, of one with 1 ns less, and of bytes that are no TOML.
pub fn lrq_bound_is_answered()
    ensures { LrqBoundIsAnswered }
{}

/// What is due to `lrq check`: of the least certificate with narrowed bursts, which is refused with the declared ones,
/// of one with a bound 1 ps less, of a network with a deadline 1 ns less, of a file that is no certificate, and of two
/// files with a fault.
pub fn lrq_check_is_answered()
    ensures { LrqCheckIsAnswered }
{}

/// Words that are no command: too few and too many for each, others in their place, and the numbers of mixed orders.
pub fn words_are_none()
    ensures { WordsAreNone }
{}

/// What words say that laws conclude of the texts of `check`, `replay` and `generate` and of the answers to `bound`, on
/// the files of the worked calls: each of something of which it is so, and beside it of others, with one thing changed,
/// of which it is not.
pub fn texts_are_shown()
    ensures { TextsAreShown }
{}

/// The same of the answers to requests, by the network before each and the one after it.
pub fn replies_are_shown()
    ensures { RepliesAreShown }
{}

/// What words say that laws have as premises: of which nodes it is asked that they keep their buckets in true time, and
/// which routes begin at stations, or join them.
pub fn premises_are_shown()
    ensures { PremisesAreShown }
{}

/// What it comes to that a run, or releases, are those of a capture, that its traffic is counted, that a schedule is
/// told as `releases` prints it, and that a capture is within what a certificate says: each part, and no others.
pub fn captures_are_meant()
    ensures { CapturesAreMeant }
{}

/// What is asked of a node that keeps its buckets, or its spacing: both ways, in any network, of its own streams and
/// flows, and of no others. Closed flows of other nodes have frames that are too long.
pub fn keeping_is_meant()
    ensures { KeepingIsMeant }
{}

/// A law, of any frames, rates and bursts, both ways: whose releases count for a talker, and with how many bits; since
/// which frame a meter of `conform` tells that a bucket is exceeded; and what the bucket holds of a stream for which
/// `generate` makes releases.
pub fn metering_is_meant()
    ensures { MeteringIsMeant }
{}

/// The other half of what is due where several texts may be: that of each run by the order that is asked for, with
/// exactly the releases that are declared, and that of each list of delays that are found.
pub fn runs_are_due()
    ensures { RunsAreDue }
{}
