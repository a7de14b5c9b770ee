//! Worked texts and what they declare, worked values and how they are printed, and what is taken from files.

ghost use Rattle.ats_text_examples.specs.Asked.{RequestsAreRead};
ghost use Rattle.ats_text_examples.specs.Called.{CallsAreNamed};
ghost use Rattle.ats_text_examples.specs.Captured.{CapturesAreRead};
ghost use Rattle.ats_text_examples.specs.Fitted.{FitsAreWritten};
ghost use Rattle.ats_text_examples.specs.Found.{DelaysAreWritten};
ghost use Rattle.ats_text_examples.specs.Measures.{MeasuresAreMeant};
ghost use Rattle.ats_text_examples.specs.Outer.{OutsideIsTold};
ghost use Rattle.ats_text_examples.specs.Ports.{PortsAreWorked, RatesAreInverse};
ghost use Rattle.ats_text_examples.specs.Runs.{RunsAreWritten};
ghost use Rattle.ats_text_examples.specs.Set.{SettingsAreWritten};
ghost use Rattle.ats_text_examples.specs.Shaped.{ShapesAreTold};
ghost use Rattle.ats_text_examples.specs.Shown.{NetworksAreWritten};
ghost use Rattle.ats_text_examples.specs.Tabled.{TablesAreTold};
ghost use Rattle.ats_text_examples.specs.Tables.{TablesAreRead};
ghost use Rattle.ats_text_examples.specs.Taken.{FilesAreTaken};
ghost use Rattle.ats_text_examples.specs.Verdicts.{AnswersAreWritten, VerdictsAreWritten};

/// The tables of a network file in each format, with two of each array and with numbers that are all different, are
/// read as the documents that are written out.
pub fn tables_are_read()
    ensures { TablesAreRead }
{}

/// What is taken from each file of a call is what its bytes declare, or their fault in its words. More bytes than a
/// file may have are too many; of a capture the first of them are judged before.
pub fn files_are_taken()
    ensures { FilesAreTaken }
{}

/// A rate in megabits per second times the picoseconds that a bit takes is 1,000,000.
pub fn rates_are_inverse()
    ensures { RatesAreInverse }
{}

/// The ports of a worked network with their names, what its senders make of a port, the rows of its least certificate
/// and the sums of both streams; and the reasons against it where a residence or a deadline is less.
pub fn ports_are_worked()
    ensures { PortsAreWorked }
{}

/// What `show` and `explain` print of the worked network, where a stream is late, and `check` of rows that hold.
pub fn networks_are_written()
    ensures { NetworksAreWritten }
{}

/// What `settings` prints of settings, and `buffers` of buffers, with and without the peaks of a run.
pub fn settings_are_written()
    ensures { SettingsAreWritten }
{}

/// What is printed of each refusal, reason, column and breach, one of each.
pub fn verdicts_are_written()
    ensures { VerdictsAreWritten }
{}

/// What is printed of each answer to a request; and that `admit` prints an answer for each request, and then how many
/// streams are left.
pub fn answers_are_written()
    ensures { AnswersAreWritten }
{}

/// What `replay`, `generate` and `capture` print of frames that arrived, were late, and had an undeclared size.
pub fn runs_are_written()
    ensures { RunsAreWritten }
{}

/// What `witness` prints of a delay for each port of a stream's path, and of releases.
pub fn delays_are_written()
    ensures { DelaysAreWritten }
{}

/// What `fit` prints of streams and flows with releases and without, which of them are over what they declare, and that
/// frames of undeclared sizes count.
pub fn fits_are_written()
    ensures { FitsAreWritten }
{}

/// Certificates and schedules: how rows and releases are written, how their records are read, and in which record a
/// fault is.
pub fn tables_are_told()
    ensures { TablesAreTold }
{}

/// What the text of a shape file declares, whose lines may end in CR LF, and what is printed of it. Each frame is
/// judged by what its own stream declares.
pub fn shapes_are_told()
    ensures { ShapesAreTold }
{}

/// What the text of a request file asks, and in which line a fault is.
pub fn requests_are_read()
    ensures { RequestsAreRead }
{}

/// The records of two captures, with each order of bytes and each fraction of seconds; and the stream that a record
/// belongs to, by address and VLAN identifier together.
pub fn captures_are_read()
    ensures { CapturesAreRead }
{}

/// The command of each verb, the station, port and stream of each name, the order of each word, which frame goes first
/// by it, the seven exit codes, and by which of these a text is printed.
pub fn calls_are_named()
    ensures { CallsAreNamed }
{}

/// The tightest listener is one of the least slack, and the first of these in the worked network; a sender's worst
/// delay to a listener is the longest of its frames that arrived there, 0 where none did; where a certificate holds, a
/// printed bound is the sum of a stream's least bounds along the route there. No sum is told where there is a reason
/// why none holds, whichever; each burst is narrowed to a longest frame.
pub fn measures_are_meant()
    ensures { MeasuresAreMeant }
{}

/// A count of faults that rose and one that stood, a file that is read once and one that is read twice, and what a sink
/// holds with a piece more.
pub fn outside_is_told()
    ensures { OutsideIsTold }
{}
