//! `lrq shape FILE`: one length-rate-quotient regulator, from arrivals to verdicts.

ghost use Rattle.ats_command_input.specs.Command as table;
ghost use Rattle.ats_command_due.specs.Calls.{Answers, ReadsFiles};

use ats_command_input::{Stop, shape_in};
use ats_io::Files;
use ats_lrq_shape::report;
use std::alloc::Global;

/// The text of `lrq shape FILE`: the verdicts of one regulator. It stops where the file has a fault or can't be read.
pub fn lrq_shape<F: Files>(alloc: Global, file: &str, files: &mut F) -> Result<Vec<u8>, Stop>
    ensures due { Answers (F.told files.old) (table.LrqShape file.now) result }
    ensures reads { ReadsFiles F.told F.faults F.reads (table.LrqShape file.now) files.old files.new result }
{
    let shape = shape_in(alloc, file, files)?;
    Ok(report(alloc, &shape)?)
}
