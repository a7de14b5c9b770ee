//! The failure of a call that gives a fault, unless memory runs out.

ghost use Rattle.ats_num.specs.Failure.{IsWithin};

use std::alloc::{AllocError, AllocFailed};

/// A reason that a call may give for its refusal. Want of memory is none: it may come at any time, and no contract says
/// when.
pub trait Fault: Drop {}

/// Why a call that takes memory gave no value.
#[derive(Clone, Copy, Debug, PartialEq, Eq)]
pub enum Failure<F> {
    /// The fault that is due.
    Fault(F),
    /// Memory ran out.
    NoMemory,
}

impl<F> From<AllocError> for Failure<F> {
    ghost use Rattle.std.specs.Prelude.{◌≡◌};
    ghost use Rattle.ats_num.specs.declared.failure.Failure.TheVariants.{NoMemory};

    ghost from_gives = { λ _ e. e ≡ NoMemory };

    fn from(_e: AllocError) -> Failure<F> {
        Failure::NoMemory
    }
}

impl<F, T: Drop> From<AllocFailed<T>> for Failure<F> {
    ghost use Rattle.std.specs.Prelude.{◌≡◌};
    ghost use Rattle.ats_num.specs.declared.failure.Failure.TheVariants.{NoMemory};

    ghost from_gives = { λ _ e. e ≡ NoMemory };

    fn from(_e: AllocFailed<T>) -> Failure<F> {
        Failure::NoMemory
    }
}

impl<F: Fault> From<F> for Failure<F> {
    ghost use Rattle.std.specs.Prelude.{◌≡◌};
    ghost use Rattle.ats_num.specs.declared.failure.Failure.TheVariants.{Fault};

    ghost from_gives = { λ fault e. e ≡ Fault fault };

    fn from(fault: F) -> Failure<F> {
        Failure::Fault(fault)
    }
}

impl<F: Fault> Failure<F> {
    /// The same failure, whose fault is told as one of a larger part.
    pub fn within<G: From<F>>(self) -> Failure<G>
        ensures { IsWithin G.from_gives self result }
    {
        match self {
            Failure::Fault(fault) => Failure::Fault(G::from(fault)),
            Failure::NoMemory => Failure::NoMemory,
        }
    }
}
