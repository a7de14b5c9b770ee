//! Rows of a certificate.

ghost use Rattle.std.specs.Prelude.{◌↔◌, IsTrue};
ghost use Rattle.ats_certificate.specs.Certificate.{IsBefore};

/// What a certificate says of a port and a class: what the declared streams and flows make of them,
/// and the bound of each frame of that class.
#[derive(Clone, Copy, Debug, PartialEq, Eq)]
pub struct Row {
    /// The number of the port.
    pub port: u32,
    /// The class, 1 to 7.
    pub class: u8,
    /// The part of a second, in picoseconds, that the rates of the higher classes take of each second.
    pub higher: u128,
    /// The same of the rates of this class.
    pub equal: u128,
    /// The bursts of this class and the higher ones together, in bits.
    pub bursts: u128,
    /// The wire bits of the longest frame of a lower class, flows included; 0 where there is none.
    pub lower: u64,
    /// The wire bits of the shortest frame of this class.
    pub least: u64,
    /// How long a frame may wait at the port from its eligibility, in picoseconds.
    pub wait: u128,
    /// The bound, in picoseconds, on the time from a frame's eligibility at the port to its arrival
    /// behind it: the wait, the transmission of the shortest frame, and the latency.
    pub bound: u128,
}

impl Row {
    /// Whether this row comes before another: its port is lower, or the port is the same and its class is lower.
    pub fn is_before(&self, other: &Row) -> bool
        ensures { IsTrue result ↔ IsBefore self.now other.now }
    {
        if self.port == other.port {
            self.class < other.class
        } else {
            self.port < other.port
        }
    }
}
