//! The keys of a network file.

ghost use Rattle.std.specs.Prelude.{◌≡◌};

/// A key of a network file, in any of its tables: the more frequent ones first. Its number is its place in `Slots`.
#[derive(Clone, Copy, Debug, PartialEq, Eq)]
pub enum Key {
    /// The name of a node, a stream or a flow.
    Name,
    /// The nodes of a path, from talker to listener.
    Path,
    /// A stream's traffic class, where it has one at all ports of its path.
    Class,
    /// A stream's committed rate, in bits per second.
    RateBps,
    /// A stream's burst, in bits.
    BurstBits,
    /// The least octets of a stream's frames.
    MinOctets,
    /// The most octets of the frames of a stream or a flow.
    MaxOctets,
    /// The talker, where the path is to be found.
    From,
    /// The listener, where the path is to be found.
    To,
    /// A stream's deadline, in nanoseconds.
    DeadlineNs,
    /// A stream's destination address.
    Address,
    /// A stream's VLAN identifier.
    Vlan,
    /// One end of a link.
    A,
    /// The other end of a link.
    B,
    /// A link's rate, in megabits per second.
    Mbps,
    /// A link's propagation, in nanoseconds.
    PropagationNs,
    /// How long a bridge processes each frame, in nanoseconds, in format 1.
    ProcessingNs,
    /// The maximum residence time of a bridge's groups, in nanoseconds.
    ResidenceNs,
    /// How long a bridge processes a frame at least, in nanoseconds, in format 2.
    ProcessingMinNs,
    /// How long a bridge processes a frame at most, in nanoseconds, in format 2.
    ProcessingMaxNs,
    /// A stream's traffic classes, one for each of its ports.
    Classes,
    /// The paths of a stream, one to each listener, in format 3.
    Paths,
    /// The greatest deviation of the clock of a bridge's groups, in parts in a million, in format 3.
    ClockPpm,
    /// The step of this clock, in picoseconds, in format 3.
    ClockStepPs,
    /// The format's number, in the top table.
    Format,
    /// The array of stations.
    Station,
    /// The array of bridges.
    Bridge,
    /// The array of links.
    Link,
    /// The array of streams.
    Stream,
    /// The array of streams for each port, in format 3.
    LinkLocal,
    /// The array of flows.
    Flow,
    /// The array of flows for each port, in format 3.
    LinkLocalFlow,
}

impl Key {
    ghost use Rattle.ats_network_table.specs.Words.{key_text};

    /// The key as a file writes it.
    pub fn text(&self) -> &'static str
        ensures { result.now ≡ key_text self.now }
    {
        match self {
            Key::Name => "name",
            Key::Path => "path",
            Key::Class => "class",
            Key::RateBps => "rate_bps",
            Key::BurstBits => "burst_bits",
            Key::MinOctets => "min_octets",
            Key::MaxOctets => "max_octets",
            Key::From => "from",
            Key::To => "to",
            Key::DeadlineNs => "deadline_ns",
            Key::Address => "address",
            Key::Vlan => "vlan",
            Key::A => "a",
            Key::B => "b",
            Key::Mbps => "mbps",
            Key::PropagationNs => "propagation_ns",
            Key::ProcessingNs => "processing_ns",
            Key::ResidenceNs => "residence_ns",
            Key::ProcessingMinNs => "processing_min_ns",
            Key::ProcessingMaxNs => "processing_max_ns",
            Key::Classes => "classes",
            Key::Paths => "paths",
            Key::ClockPpm => "clock_ppm",
            Key::ClockStepPs => "clock_step_ps",
            Key::Format => "format",
            Key::Station => "station",
            Key::Bridge => "bridge",
            Key::Link => "link",
            Key::Stream => "stream",
            Key::LinkLocal => "link_local",
            Key::Flow => "flow",
            Key::LinkLocalFlow => "link_local_flow",
        }
    }
}
