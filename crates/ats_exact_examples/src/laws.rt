//! What laws that hold one way only leave open, on closed examples and as laws of their own.

ghost use Rattle.ats_exact_examples.specs.AnyWords.{WordsAreAny};
ghost use Rattle.ats_exact_examples.specs.CaptureWords.{CaptureBytesAreMeant};
ghost use Rattle.ats_exact_examples.specs.Captures.{RecordsAreRead};
ghost use Rattle.ats_exact_examples.specs.Faults.{FaultsAreFirst};
ghost use Rattle.ats_exact_examples.specs.Found.{IdentitiesAreFound, NamesAreFound};
ghost use Rattle.ats_exact_examples.specs.Making.{MakingIsMeant};
ghost use Rattle.ats_exact_examples.specs.Ports.{GroupsCrossPorts};
ghost use Rattle.ats_exact_examples.specs.Held.{EachIsSetOnce, HeldIsExact};
ghost use Rattle.ats_exact_examples.specs.Links.{LatenciesMayDiffer};
ghost use Rattle.ats_exact_examples.specs.Named.{IdentitiesAreExact, NamesAreExact};
ghost use Rattle.ats_exact_examples.specs.Only.{NothingElseIsRead};
ghost use Rattle.ats_exact_examples.specs.Orders.{OrdersAreExact};
ghost use Rattle.ats_exact_examples.specs.Ports.{GroupsCrossPorts};
ghost use Rattle.ats_exact_examples.specs.Records.{FirstFaultsAreNamed};
ghost use Rattle.ats_exact_examples.specs.Tags.{TagsAreExact};
ghost use Rattle.ats_exact_examples.specs.Waits.{WaitsMayGrow};
ghost use Rattle.ats_exact_examples.specs.Worded.{WordsAreNumbers};

/// A longer wait covers too, and makes larger buffers there and behind.
pub fn waits_may_grow()
    ensures { WaitsMayGrow }
{}

/// Of two faulty records of a certificate or a schedule the first is named, whatever the faults.
pub fn first_faults_are_named()
    ensures { FirstFaultsAreNamed }
{}

/// The fault that is told of a certificate or a schedule is that of the first record that has one, and that one is
/// told.
pub fn faults_are_first()
    ensures { FaultsAreFirst }
{}

/// Streams of one class that come by one port are one group, also where they go on by different ports.
pub fn groups_cross_ports()
    ensures { GroupsCrossPorts }
{}

/// Where each port has one latency, two ports may have different ones; the legal runs of the line, which has two, are
/// those in which each frame arrives when its port's latency is over.
pub fn latencies_may_differ()
    ensures { LatenciesMayDiffer }
{}

/// Keys of any two senders, the wait of one frame with a great number, and turns of three and five streams, and of two
/// with three listeners.
pub fn orders_are_exact()
    ensures { OrdersAreExact }
{}

/// No other numbers, rates, words or identities are read.
pub fn nothing_else_is_read()
    ensures { NothingElseIsRead }
{}

/// Each command takes any words for its files and names, empty ones too, and where an order or a number is due one that
/// writes one; and which of its words name files.
pub fn words_are_any()
    ensures { WordsAreAny }
{}

/// A stream, a port or a station that a word names is there, and is called just so.
pub fn names_are_exact()
    ensures { NamesAreExact }
{}

/// A stream that a destination address and a VLAN identifier name is there, and declares just these; and what a sender
/// declares is what the stream with its number does.
pub fn identities_are_exact()
    ensures { IdentitiesAreExact }
{}

/// What is found by a name is the first stream, port or station that is called so, and in a schedule the first stream
/// or flow, and nothing is found only where none is.
pub fn names_are_found()
    ensures { NamesAreFound }
{}

/// What is found by a destination address and a VLAN identifier is the first stream that declares them, and nothing is
/// found only where none does; each stream has what it declares; and the records of a capture belong to the streams
/// that declare what identifies them and begin at the station.
pub fn identities_are_found()
    ensures { IdentitiesAreFound }
{}

/// The tag of a frame in a capture has the frame's class as its priority, and the VLAN identifier behind it.
pub fn tags_are_exact()
    ensures { TagsAreExact }
{}

/// What identifies a frame stands in its first 16 bytes, so the outer of two tags counts; and any whole records behind
/// a header without a fault are read, each as its own bytes say.
pub fn records_are_read()
    ensures { RecordsAreRead }
{}

/// What a port holds at a time, of whatever sizes; how long frames stay there, and by how much their ways to it differ.
pub fn held_is_exact()
    ensures { HeldIsExact }
{}

/// Each port of a sender that leaves a bridge to which its frames come has one setting, once.
pub fn each_is_set_once()
    ensures { EachIsSetOnce }
{}

/// When `generate` makes releases, and why it makes none, of any network and both ways; and from which numbers they are
/// drawn.
pub fn making_is_meant()
    ensures { MakingIsMeant }
{}

/// Which words name orders, seeds and numbers of frames: of all words, these and no others.
pub fn words_are_numbers()
    ensures { WordsAreNumbers }
{}

/// The bytes of captures, read and written, and what their records come to, written out for all bytes and numbers.
pub fn capture_bytes_are_meant()
    ensures { CaptureBytesAreMeant }
{}
