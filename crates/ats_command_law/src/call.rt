//! What is proved of calls over an outside that never fails.

ghost use Rattle.std.specs.Prelude.{◌≡◌, ◌⊎◌};
ghost use Rattle.ats_command_input.specs.Command.{command_of};
ghost use Rattle.ats_command_input.specs.Named.{texts_of};
ghost use Rattle.ats_command_due.specs.Calls.{StatusIsDue};

use ats_command::ats;
use ats_command_input::Status;
use ats_io::{Files, SureFiles, SureSink};
use std::alloc::Global;

/// Over files that tell their bytes and a sink, of which neither ever fails, a call ends with the
/// status that is due, or with `NoMemory`. Nothing is said of what was written.
pub fn ats_surely(
    alloc: Global,
    words: &[String],
    files: &mut SureFiles,
    out: &mut SureSink,
) -> Status
    ensures { (result ≡ Status.NoMemory)
        ⊎ StatusIsDue (⟦<SureFiles as Files>⟧.told files.old) (command_of (texts_of words.now)) result }
{
    ats(alloc, words, files, out)
}
