//! What can go wrong outside.

ghost use Rattle.std.specs.Prelude.{◌≡◌};

use ats_num::{Failure, Fault};
use thiserror::Error;

/// The outside failed: a read or a write was not carried out. No cause is known.
#[derive(Clone, Copy, Debug, PartialEq, Eq, Hash, Error)]
#[error("the outside failed")]
pub struct Failed;

/// Why a file was not read whole.
#[derive(Clone, Copy, Debug, PartialEq, Eq, Hash, Error)]
pub enum ReadFault {
    /// A read failed; the count of faults of the file's name rose.
    #[error("a read failed")]
    Failed,
    /// The file has more bytes than the limit.
    #[error("the file is too long")]
    TooLong,
}

impl Fault for ReadFault {}

impl From<Failed> for Failure<ReadFault> {
    ghost use Rattle.ats_num.specs.declared.failure.Failure.TheVariants.{Fault};
    ghost use Rattle.ats_io.specs.declared.fault.ReadFault.TheVariants.{Failed};

    ghost from_gives = { λ _ e. e ≡ Fault Failed };

    fn from(_e: Failed) -> Failure<ReadFault> {
        Failure::Fault(ReadFault::Failed)
    }
}
