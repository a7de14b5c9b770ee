//! The rules that a stream or a flow can break.

ghost use Rattle.std.specs.Prelude.{◌≡◌, Some};
ghost use Rattle.ats_streams.specs.Fault.{text_of};

use ats_num::Fault;
use std::error::Error;
use std::fmt;

/// The first rule that a declared stream or flow breaks, in the order of the variants.
#[derive(Clone, Copy, Debug, PartialEq, Eq, Hash)]
pub enum StreamFault {
    /// The class is not 1 to 7.
    BadClass,
    /// The rate is not 1 to 100,000,000,000 bits per second.
    BadRate,
    /// The sizes are not `64 <= min_octets <= max_octets <= 2000`.
    BadSizes,
    /// The burst is below the wire bits of the longest frame.
    BurstBelowFrame,
    /// A limit is passed: routes of 1 to 64 ports, a burst of at most 1,000,000,000 bits, a deadline of 1 ns to 1 s.
    Limit,
}

impl StreamFault {
    /// The word that names the fault in a line of text.
    pub fn text(&self) -> &'static str
        ensures { result.now ≡ text_of self.now }
    {
        match self {
            StreamFault::BadClass => "bad-class",
            StreamFault::BadRate => "bad-rate",
            StreamFault::BadSizes => "bad-sizes",
            StreamFault::BurstBelowFrame => "burst-below-frame",
            StreamFault::Limit => "limit",
        }
    }
}

impl Fault for StreamFault {}

impl fmt::Display for StreamFault {
    ghost output = { λ fault. Some (text_of fault) };

    fn fmt<W: fmt::Write>(&self, f: &mut fmt::Formatter<W>) -> fmt::Result {
        f.write_str(self.text())
    }
}

impl Error for StreamFault {}
