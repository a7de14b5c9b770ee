//! The formats of network files.

ghost use Rattle.std.specs.Prelude.{◌≡◌};

use crate::key::Key;

/// A format of network files. They differ in the keys of a bridge, and in what streams and flows declare of their
/// routes.
#[derive(Clone, Copy)]
pub enum Format {
    /// Format 1: a bridge processes each frame in the same time, `processing_ns`.
    One,
    /// Format 2: a bridge processes each frame in a time from `processing_min_ns` to `processing_max_ns`.
    Two,
    /// Format 3: as format 2, and a stream may have several listeners, by `paths` or by an array with `to`; routes
    /// begin and end at any nodes, where before they did so at stations, and have up to 64 ports, where before 16.
    Three,
}

impl Format {
    ghost use Rattle.ats_network_table.specs.Words.{least_processing_key, greatest_processing_key};

    /// The key of a bridge's least processing time.
    pub fn least_processing_key(self) -> Key
        ensures { result ≡ least_processing_key self }
    {
        match self {
            Format::One => Key::ProcessingNs,
            Format::Two | Format::Three => Key::ProcessingMinNs,
        }
    }

    /// The key of a bridge's greatest processing time.
    pub fn greatest_processing_key(self) -> Key
        ensures { result ≡ greatest_processing_key self }
    {
        match self {
            Format::One => Key::ProcessingNs,
            Format::Two | Format::Three => Key::ProcessingMaxNs,
        }
    }
}
