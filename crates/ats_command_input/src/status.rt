//! How a call of the program ended.

ghost use Rattle.std.specs.Prelude.{◌≡◌};

/// The end of a call.
#[derive(Clone, Copy, Debug, PartialEq, Eq)]
pub enum Status {
    /// The command was carried out, and its text printed.
    Done,
    /// The words are not in the command table.
    Words,
    /// A file is too long, out of form, or breaks a rule.
    Input,
    /// The command's judgement refuses.
    Refused,
    /// A file could not be read; nothing was printed.
    ReadFailed,
    /// The text could not be printed whole.
    WriteFailed,
    /// Memory ran out; nothing was printed.
    NoMemory,
}

impl Status {
    ghost use Rattle.ats_command_input.specs.Status.{code_of};

    /// The exit code: 0 to 6 in the order of the variants.
    pub fn code(self) -> u8
        ensures { result ≡ code_of self }
    {
        self as u8
    }
}
