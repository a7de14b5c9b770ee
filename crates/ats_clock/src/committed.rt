//! A committed rate with its burst.

use ats_num::Rate;

/// The rate and the burst of a token bucket (IEEE Std 802.1Qcr, CommittedInformationRate and CommittedBurstSize).
#[derive(Clone, Copy, Debug, PartialEq, Eq)]
pub struct Committed {
    /// The committed rate.
    pub rate: Rate,
    /// The committed burst, in bits.
    pub burst_bits: u64,
}
