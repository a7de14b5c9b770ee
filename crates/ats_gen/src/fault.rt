//! Why no releases are made.

use ats_num::Fault;
use thiserror::Error;

/// Why no releases are made.
#[derive(Clone, Copy, Debug, PartialEq, Eq, Error)]
pub enum GenFault {
    /// The network has no stream.
    #[error("no stream is declared")]
    NoStream,
    /// A release would be later than 100,000,000,000,000,000 ps, or the ports of the frames, each with those of its
    /// stream, would be together more than 3,200,000.
    #[error("a release or the ports of the frames are past the limit")]
    Limit,
}

impl Fault for GenFault {}
