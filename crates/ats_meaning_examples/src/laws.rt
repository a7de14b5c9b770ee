//! What words say that laws only conclude, or only ask for, so that a word that said less, or asked for more, would be
//! noticed nowhere else.

ghost use Rattle.ats_meaning_examples.specs.Admissions.{AdmissionsAreMeant};
ghost use Rattle.ats_meaning_examples.specs.Asked.{AskedIsMeant};
ghost use Rattle.ats_meaning_examples.specs.Clocks.{ClocksAreMeant};
ghost use Rattle.ats_meaning_examples.specs.Handed.{HandingOnIsMeant};
ghost use Rattle.ats_meaning_examples.specs.Happening.{HappeningIsMeant};
ghost use Rattle.ats_meaning_examples.specs.Hops.{HopsAreMeant};
ghost use Rattle.ats_meaning_examples.specs.Kept.{KeptIsMeant};
ghost use Rattle.ats_meaning_examples.specs.Leaving.{LeavingIsMeant};
ghost use Rattle.ats_meaning_examples.specs.Lines.{LinesAreWritten};
ghost use Rattle.ats_meaning_examples.specs.Listeners.{ListenersAreMeant};
ghost use Rattle.ats_meaning_examples.specs.NetworkTexts.{NetworkTextsAreTold};
ghost use Rattle.ats_meaning_examples.specs.Once.{OnceIsMeant};
ghost use Rattle.ats_meaning_examples.specs.Parts.{ExplanationsAreMeant};
ghost use Rattle.ats_meaning_examples.specs.Ports.{PortsAreMeant};
ghost use Rattle.ats_meaning_examples.specs.Printing.{PrintingIsMeant};
ghost use Rattle.ats_meaning_examples.specs.Read.{ReadingIsMeant};
ghost use Rattle.ats_meaning_examples.specs.Rows.{RowsAreMeant};
ghost use Rattle.ats_meaning_examples.specs.RunLines.{RunLinesAreTold};
ghost use Rattle.ats_meaning_examples.specs.Faulted.{SenderFaultsAreMeant};
ghost use Rattle.ats_meaning_examples.specs.Pieces.{PiecesAreMeant};
ghost use Rattle.ats_meaning_examples.specs.Promised.{PromisesAreMeant};
ghost use Rattle.ats_meaning_examples.specs.RunTotals.{RunTotalsAreMeant};
ghost use Rattle.ats_meaning_examples.specs.Senders.{SendersAreMeant};
ghost use Rattle.ats_meaning_examples.specs.Settings.{SettingsAreMeant};
ghost use Rattle.ats_meaning_examples.specs.Told.{ToldIsMeant};

use ats_explain::laws::each_stream_adds_up;

/// The parts of a bound, and the names in them, each with what they are not: parts with one time changed, and the names
/// of senders that are not the first with longest frames of a lower class.
pub fn explanations_are_meant()
    ensures { ExplanationsAreMeant }
{
    each_stream_adds_up();
}

/// What a setting tells of a sender, of its ports and classes and of its scheduler, and that with one number changed it
/// is not true.
pub fn settings_are_meant()
    ensures { SettingsAreMeant }
{}

/// What networks keep, with their topologies, streams, flows, trees and rates, part by part, and nothing else.
pub fn kept_is_meant()
    ensures { KeptIsMeant }
{}

/// What is told of settings, of buffers and of a bound's parts, for all networks: in which order settings stand, which
/// networks are set alike, what streams may have at a port, and which lines a stream and a port have.
pub fn told_is_meant()
    ensures { ToldIsMeant }
{}

/// At which places of a sender's ports there is one that leaves a bridge to which its frames come, on the trunk and on
/// each branch, and at which there is none.
pub fn leaving_is_meant()
    ensures { LeavingIsMeant }
{}

/// That a frame is sent, told of and counted once; frames with a port twice, with two endings, or with none are not.
pub fn once_is_meant()
    ensures { OnceIsMeant }
{}

/// A frame is handed on within a bound where it is eligible by then, and not a picosecond later, nor where it is late
/// or discarded for its size.
pub fn handing_on_is_meant()
    ensures { HandingOnIsMeant }
{}

/// What is read of a file is read of its bytes at once, of its pieces, and through a window.
pub fn reading_is_meant()
    ensures { ReadingIsMeant }
{}

/// That a delay can happen says that a run by true time shows it, in which every node keeps its buckets, by a frame of
/// the stream that takes so long to the listener; and each such run shows one, whichever releases it has.
pub fn happening_is_meant()
    ensures { HappeningIsMeant }
{}

/// What it comes to that senders are named, that talkers alone are asked to keep their buckets, that a journey has one
/// leg, and which senders do not keep to what they declare.
pub fn asked_is_meant()
    ensures { AskedIsMeant }
{}

/// What laws conclude of senders: all that each keeps, that its ports meet at bridges, its path with one listener, its
/// rates and bursts at a port, and what is seen of a stream and of a flow.
pub fn senders_are_meant()
    ensures { SendersAreMeant }
{}

/// What laws conclude of ports and walks: that ports are two for each link, within their limits, how a walk goes on,
/// what the least number is that passes a test, and which legs are right for routes.
pub fn ports_are_meant()
    ensures { PortsAreMeant }
{}

/// What laws ask and conclude of clocks, of rates and of bursts, and that what a clock makes of them, and of a stay, is
/// the least whole number that is as much, of any numbers.
pub fn clocks_are_meant()
    ensures { ClocksAreMeant }
{}

/// What a row says of any network, by its senders one by one, where a port and a class are used, what is asked of a
/// wait, which row is found at a place, which bounds go into a sum, and what laws conclude of certificates.
pub fn rows_are_meant()
    ensures { RowsAreMeant }
{}

/// What laws conclude of listeners, of their routes and of a frame's ways to them, and of a stream with one listener.
pub fn listeners_are_meant()
    ensures { ListenersAreMeant }
{}

/// Of which hops laws speak that tell of schedulers and of settings, wherever a stream goes on from them.
pub fn hops_are_meant()
    ensures { HopsAreMeant }
{}

/// What laws ask and conclude of streams that come and go, of streams that share a port, and of requests: which class
/// is the first that is accepted, and what stays certified.
pub fn admissions_are_meant()
    ensures { AdmissionsAreMeant }
{}

/// What laws ask of networks and certificates whose texts tell all and are read back: names, numbers of at most 64
/// digits and no fault, and nothing else.
pub fn printing_is_meant()
    ensures { PrintingIsMeant }
{}

/// The lines that `show`, `explain`, `settings`, `buffers`, `check` and `admit` print, of any numbers, names and ports.
pub fn lines_are_written()
    ensures { LinesAreWritten }
{}

/// The texts of `show`, `explain` and an accepted certificate, line after line; which rates a line of rates gives; and
/// the table of a certificate's rows. Of all networks.
pub fn network_texts_are_told()
    ensures { NetworkTextsAreTold }
{}

/// The lines that are printed of runs, listeners, found delays, measures, requests and shapes, of any numbers, names
/// and ports, and the texts that they make.
pub fn run_lines_are_told()
    ensures { RunLinesAreTold }
{}

/// What is counted of a run and of each listener, and the longest time of its frames, written out for all runs.
pub fn run_totals_are_meant()
    ensures { RunTotalsAreMeant }
{}

/// What one thing is made of, of all things: a port of its link, classes of those that are given, a number of its row,
/// a metered frame of its release, and what a group of length-rate-quotient regulators keeps.
pub fn pieces_are_meant()
    ensures { PiecesAreMeant }
{}

/// Of which runs something is promised, by any judge, and what it is to arrive in time, part by part and both ways.
pub fn promises_are_meant()
    ensures { PromisesAreMeant }
{}

/// Which fault of a stream or a flow is told where several rules are broken: the first in one order, of all of them.
pub fn sender_faults_are_meant()
    ensures { SenderFaultsAreMeant }
{}
