//! What a command comes to, and how that is printed.

ghost use Rattle.std.specs.Prelude.{◌≡◌, ◌≤◌, ◌⊎◌, Err};
ghost use Rattle.ats_io.specs.Outside.{Rose, TakesPrefix, appended};
ghost use Rattle.ats_command_input.specs.Answer.{HasText};
ghost use Rattle.ats_command_input.specs.Outcome.{Prints, PrintsFront};

use crate::status::Status;
use ats_io::{Sink, write_all};
use std::alloc::AllocError;

/// Why a command is not carried out.
#[derive(Drop)]
pub enum Stop {
    /// A file has a fault; this text says so.
    Input(Vec<u8>),
    /// The command's judgement refuses; this text says why.
    Refused(Vec<u8>),
    /// A file could not be read.
    ReadFailed,
    /// Memory ran out.
    NoMemory,
}

/// Prints the text that a command came to, or that it was stopped with, and gives the status; or `WriteFailed`, where
/// printing failed.
pub fn finish<O: Sink>(out: &mut O, outcome: Result<Vec<u8>, Stop>) -> Status
    ensures printed { HasText result → Prints outcome result (O.held out.old) (O.held out.new) }
    ensures no_words { ¬ (result ≡ Status.Words) }
    ensures read_failed { result ≡ Status.ReadFailed → outcome ≡ Err Stop.ReadFailed }
    ensures read_told { outcome ≡ Err Stop.ReadFailed → result ≡ Status.ReadFailed }
    ensures no_memory { result ≡ Status.NoMemory → outcome ≡ Err Stop.NoMemory }
    ensures write_failed { result ≡ Status.WriteFailed → Rose (O.faults out.old) (O.faults out.new) }
    ensures cut_short { result ≡ Status.WriteFailed → PrintsFront outcome (O.held out.old) (O.held out.new) }
    ensures calm { ¬ (result ≡ Status.WriteFailed) → O.faults out.new ≡ O.faults out.old }
    ensures silent { (result ≡ Status.ReadFailed) ⊎ (result ≡ Status.NoMemory) → O.held out.new ≡ O.held out.old }
    ensures sink { O.faults out.old ≤ O.faults out.new }
{
    match outcome {
        Ok(text) => print(out, Status::Done, &text),
        Err(Stop::Input(text)) => print(out, Status::Input, &text),
        Err(Stop::Refused(text)) => print(out, Status::Refused, &text),
        Err(Stop::ReadFailed) => Status::ReadFailed,
        Err(Stop::NoMemory) => Status::NoMemory,
    }
}

/// Prints the text, and gives the status; or `WriteFailed`, where printing failed.
pub fn print<O: Sink>(out: &mut O, status: Status, text: &[u8]) -> Status
    requires { HasText status }
    ensures ends { (result ≡ status) ⊎ (result ≡ Status.WriteFailed) }
    ensures printed { result ≡ status → O.held out.new ≡ appended (O.held out.old) text.now }
    ensures cut_short { result ≡ Status.WriteFailed → TakesPrefix text.now (O.held out.old) (O.held out.new) }
    ensures failed { result ≡ Status.WriteFailed → Rose (O.faults out.old) (O.faults out.new) }
    ensures calm { ¬ (result ≡ Status.WriteFailed) → O.faults out.new ≡ O.faults out.old }
    ensures counts { O.faults out.old ≤ O.faults out.new }
{
    match write_all(out, text) {
        Ok(()) => status,
        Err(_) => Status::WriteFailed,
    }
}

impl From<AllocError> for Stop {
    ghost use Rattle.std.specs.Prelude.{◌≡◌};
    ghost use Rattle.ats_command_input.specs.declared.outcome.Stop.TheVariants as stops;

    ghost from_gives = { λ _ e. e ≡ stops.NoMemory };

    fn from(_e: AllocError) -> Stop {
        Stop::NoMemory
    }
}
