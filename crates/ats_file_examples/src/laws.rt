//! Worked files with many entries: what they declare, in which entry a fault is, and what is printed of them.

ghost use Rattle.ats_file_examples.specs.Alone.{FlowsAreWritten};
ghost use Rattle.ats_file_examples.specs.AtPorts.{PortsAreRead};
ghost use Rattle.ats_file_examples.specs.Captured.{CaptureIsCounted};
ghost use Rattle.ats_file_examples.specs.Forked.{ForkIsRead};
ghost use Rattle.ats_file_examples.specs.Lines.{RequestsAreCounted, ShapeIsCounted};
ghost use Rattle.ats_file_examples.specs.LongLines.{LinesAreLimited};
ghost use Rattle.ats_file_examples.specs.Network.{FaultsAreCounted, FormIsCounted, NetworkIsRead};
ghost use Rattle.ats_file_examples.specs.Premises.{PremisesAreMet};
ghost use Rattle.ats_file_examples.specs.Records.{ReleasesAreRead, RowsAreRead};
ghost use Rattle.ats_file_examples.specs.Shown.{CrowdIsWritten};
ghost use Rattle.ats_file_examples.specs.Together.{KeysGoTogether};
ghost use Rattle.ats_file_examples.specs.Waiting.{WaitsAreWritten};

/// The text of a network file with three to six tables of each array, the tables that it has, and the network that it
/// declares.
pub fn network_is_read()
    ensures { NetworkIsRead }
{}

/// The text of a network file of format 3 whose stream has two listeners, by its ends and by its paths, and the network
/// that it declares.
pub fn fork_is_read()
    ensures { ForkIsRead }
{}

/// The text of a network file of format 3 with a stream and a flow for each of its four ports, and of one with two of
/// each for two ports beside a stream and a flow, and the networks that they declare.
pub fn ports_are_read()
    ensures { PortsAreRead }
{}

/// Texts of formats 1 and 2 of a line of 16 links, whose stream goes along all of it, and of one of 17, where it is
/// over the limit; a text of format 3 of the longer one.
pub fn lines_are_limited()
    ensures { LinesAreLimited }
{}

/// A further table of each array that lacks a key, has one too many or one of the wrong kind is told by its number.
pub fn form_is_counted()
    ensures { FormIsCounted }
{}

/// So is a further node, link, stream or flow that does not fit to those before.
pub fn faults_are_counted()
    ensures { FaultsAreCounted }
{}

/// Keys of which one asks for another, or stands in its place: an address and a VLAN, a class or classes, a path or
/// both its ends.
pub fn keys_go_together()
    ensures { KeysGoTogether }
{}

/// The text of a certificate of 14 rows, which are the least of the network, and in which record a fault behind them
/// is.
pub fn rows_are_read()
    ensures { RowsAreRead }
{}

/// The text of a schedule of six releases, and in which record a fault behind them is.
pub fn releases_are_read()
    ensures { ReleasesAreRead }
{}

/// The text of a file of six requests, and in which line a fault behind them is.
pub fn requests_are_counted()
    ensures { RequestsAreCounted }
{}

/// The text of a shape file of four streams and six frames, what is printed of it, and in which line a fault behind
/// them is.
pub fn shape_is_counted()
    ensures { ShapeIsCounted }
{}

/// The bytes of a capture of four records, and in which record a fault behind them is.
pub fn capture_is_counted()
    ensures { CaptureIsCounted }
{}

/// What `show`, `check` and `explain` print of a network of four streams and three flows, where no stream is late.
pub fn crowd_is_written()
    ensures { CrowdIsWritten }
{}

/// What `show` and `explain` print of networks with ports that flows alone use, with senders whose frames are of one
/// length, of which the first is named, with streams that differ in their names alone, and without streams.
pub fn flows_are_written()
    ensures { FlowsAreWritten }
{}

/// What `shape` and `lrq shape` print of a frame that waits as long as it may, and of one that waits 1 ps or a little
/// longer: another stream's frame waits for the first, and not for the second.
pub fn waits_are_written()
    ensures { WaitsAreWritten }
{}

/// What laws of formats and of names of ports ask for, of worked files: texts of formats 3 and 2 that say the same,
/// streams written by their ends and by their paths, texts before format 3, and sound names, of up to 32 bytes, with
/// rows of their ports.
pub fn premises_are_met()
    ensures { PremisesAreMet }
{}
