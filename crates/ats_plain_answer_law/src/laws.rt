//! Which answer is due to each command, and what a call did, case by case, for all inputs.

ghost use Rattle.ats_plain_answer_law.specs.Bounds.{BoundsAreAnswered};
ghost use Rattle.ats_plain_answer_law.specs.Calls.{CallsAreAnswered, ReadsAsAsked};
ghost use Rattle.ats_plain_answer_law.specs.Commands.{CommandsAreAnswered};
ghost use Rattle.ats_plain_answer_law.specs.Files.{InputsAreTaken};
ghost use Rattle.ats_plain_answer_law.specs.Judged.{JudgingIsAnswered};
ghost use Rattle.ats_plain_answer_law.specs.Named.{NamesAreAnswered};
ghost use Rattle.ats_plain_answer_law.specs.Runs.{RunsAreAnswered};
ghost use Rattle.ats_plain_answer_law.specs.Verbs.{VerbsAreNamed};
ghost use Rattle.ats_plain_answer_law.specs.Views.{ViewsAreNamed};

use ats_io::Files;

/// What is taken from each kind of file by its bytes, and with which line it is not.
pub fn inputs_are_taken()
    ensures { InputsAreTaken }
{}

/// Which station, port or stream a word of a call stands for, and with which line a call is refused
/// for it.
pub fn names_are_answered()
    ensures { NamesAreAnswered }
{}

/// Which answer is due to each command of which one text is due.
pub fn bounds_are_answered()
    ensures { BoundsAreAnswered }
{}

/// Which answers there are to each command that runs frames.
pub fn runs_are_answered()
    ensures { RunsAreAnswered }
{}

/// Which answers there are to each command that reads releases without running them, and to
/// `settings`.
pub fn judging_is_answered()
    ensures { JudgingIsAnswered }
{}

/// Whose bytes the answer to each command is made of, and at which of its files a fault may come.
pub fn commands_are_answered()
    ensures { CommandsAreAnswered }
{}

/// What a call printed, with which status, what it promises of that, and which files it read.
pub fn calls_are_answered()
    ensures { CallsAreAnswered }
{}

/// Which line of the command table a value of the program stands for.
pub fn views_are_named()
    ensures { ViewsAreNamed }
{}

/// Which command words name, by their number and byte for byte.
pub fn verbs_are_named()
    ensures { VerbsAreNamed }
{}

/// When a command has read its files as it is asked to, of whichever kind they are.
pub fn files_are_asked<F: Files>()
    ensures { ReadsAsAsked F.told F.faults F.reads }
{}
