//! What the promises of commands come to, and what is said of the bytes that are printed.

ghost use Rattle.ats_promise_law.specs.Laws.{PromisesAreKept};
ghost use Rattle.ats_promise_law.specs.Printed.{PrintedTextsAreDue};
ghost use Rattle.ats_promise_law.specs.Stations.{JoinedBeginAtStations};
ghost use Rattle.ats_promise_law.specs.Told.{DueAnswersAreMeant};

/// A law: where the files are told, what `check` promises of its text is that they declare a network and rows of which
/// it is a sound text, by the groups of Asynchronous Traffic Shaping and for talkers that keep their buckets; and
/// `lrq check` the same by length-rate-quotient regulators and for talkers that keep their spacing. Where the network's
/// file is of format 1 or 2, nothing is asked of bridges.
pub fn promises_are_kept()
    ensures { PromisesAreKept }
{}

/// A law: where each route of a network leads from a station to a station, as in each file of format 1 or 2, no bridge
/// has frames of its own.
pub fn joined_begin_at_stations()
    ensures { JoinedBeginAtStations }
{}

/// A law: what was printed whole is the text that is due with its status, where the files are told, and what was cut
/// short is the front of a due text; to a status that is due belongs an answer that is; and what `check` and
/// `lrq check` have printed is the text of which they make their promises.
pub fn printed_texts_are_due()
    ensures { PrintedTextsAreDue }
{}

/// A law: the files of a command are told exactly where bytes are told under each of its file words; and an answer is
/// due exactly where they are, and it is one where the files have these bytes.
pub fn due_answers_are_meant()
    ensures { DueAnswersAreMeant }
{}
