//! The tables of a network file.

ghost use Rattle.std.specs.Prelude.{◌≡◌};
ghost use Rattle.ats_network_table.specs.Words.{top_keys, bridge_keys, stream_keys};

use crate::format::Format;
use crate::key::Key;

/// A table of a network file.
#[derive(Clone, Copy, Debug, PartialEq, Eq)]
pub enum Table {
    /// The outermost table, with the format and the arrays of all others.
    Top,
    /// A station: an end of streams and flows.
    Station,
    /// A bridge.
    Bridge,
    /// A link between two nodes.
    Link,
    /// A stream.
    Stream,
    /// A stream for each port.
    LinkLocal,
    /// A best-effort flow.
    Flow,
    /// A best-effort flow for each port.
    LinkLocalFlow,
}

impl Table {
    ghost use Rattle.ats_network_table.specs.Words.{table_text, keys_of};

    /// The table's name as a file writes it; `top` for the outermost one, which has none there.
    pub fn text(&self) -> &'static str
        ensures { result.now ≡ table_text self.now }
    {
        match self {
            Table::Top => "top",
            Table::Station => "station",
            Table::Bridge => "bridge",
            Table::Link => "link",
            Table::Stream => "stream",
            Table::LinkLocal => "link_local",
            Table::Flow => "flow",
            Table::LinkLocalFlow => "link_local_flow",
        }
    }

    /// The keys that the table may have in files of a format, in the order in which its faults are looked for.
    pub fn keys(&self, format: Format) -> &'static [Key]
        ensures { result.now ≡ keys_of format self.now }
    {
        match self {
            Table::Top => top_keys(format),
            Table::Station => &[Key::Name],
            Table::Bridge => bridge_keys(format),
            Table::Link => &[Key::A, Key::B, Key::Mbps, Key::PropagationNs],
            Table::Stream => stream_keys(format),
            Table::LinkLocal => &[
                Key::Name,
                Key::Class,
                Key::RateBps,
                Key::BurstBits,
                Key::MinOctets,
                Key::MaxOctets,
                Key::DeadlineNs,
            ],
            Table::Flow => &[Key::Name, Key::Path, Key::From, Key::To, Key::MaxOctets],
            Table::LinkLocalFlow => &[Key::Name, Key::MaxOctets],
        }
    }
}

// The keys of the top table in files of a format.
fn top_keys(format: Format) -> &'static [Key]
    ensures { result.now ≡ top_keys format }
{
    match format {
        Format::One | Format::Two => &[
            Key::Format,
            Key::Station,
            Key::Bridge,
            Key::Link,
            Key::Stream,
            Key::Flow,
        ],
        Format::Three => &[
            Key::Format,
            Key::Station,
            Key::Bridge,
            Key::Link,
            Key::Stream,
            Key::LinkLocal,
            Key::Flow,
            Key::LinkLocalFlow,
        ],
    }
}

// The keys of a bridge in files of a format.
fn bridge_keys(format: Format) -> &'static [Key]
    ensures { result.now ≡ bridge_keys format }
{
    match format {
        Format::One => &[Key::Name, Key::ProcessingNs, Key::ResidenceNs],
        Format::Two => &[
            Key::Name,
            Key::ProcessingMinNs,
            Key::ProcessingMaxNs,
            Key::ResidenceNs,
        ],
        Format::Three => &[
            Key::Name,
            Key::ProcessingMinNs,
            Key::ProcessingMaxNs,
            Key::ResidenceNs,
            Key::ClockPpm,
            Key::ClockStepPs,
        ],
    }
}

// The keys of a stream in files of a format.
fn stream_keys(format: Format) -> &'static [Key]
    ensures { result.now ≡ stream_keys format }
{
    match format {
        Format::One | Format::Two => &[
            Key::Name,
            Key::Path,
            Key::From,
            Key::To,
            Key::Class,
            Key::Classes,
            Key::RateBps,
            Key::BurstBits,
            Key::MinOctets,
            Key::MaxOctets,
            Key::DeadlineNs,
            Key::Address,
            Key::Vlan,
        ],
        Format::Three => &[
            Key::Name,
            Key::Path,
            Key::Paths,
            Key::From,
            Key::To,
            Key::Class,
            Key::Classes,
            Key::RateBps,
            Key::BurstBits,
            Key::MinOctets,
            Key::MaxOctets,
            Key::DeadlineNs,
            Key::Address,
            Key::Vlan,
        ],
    }
}
