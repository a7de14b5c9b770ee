//! `shape FILE`: one group of schedulers, from arrivals to verdicts.

ghost use Rattle.std.specs.Prelude.{◌≡◌, IfOk};
ghost use Rattle.ats_shape.specs.Text.{text_of};
ghost use Rattle.ats_command_input.specs.Command as table;
ghost use Rattle.ats_command_due.specs.Calls.{Answers, ReadsFiles};

use ats_command_input::{Stop, shape_in};
use ats_io::Files;
use ats_shape::{Shape, judge, report};
use std::alloc::{AllocError, Global};

/// The text of `shape FILE`. It stops where the file has a fault or can't be read.
pub fn shape<F: Files>(alloc: Global, file: &str, files: &mut F) -> Result<Vec<u8>, Stop>
    ensures due { Answers (F.told files.old) (table.Shape file.now) result }
    ensures reads { ReadsFiles F.told F.faults F.reads (table.Shape file.now) files.old files.new result }
{
    let shape = shape_in(alloc, file, files)?;
    Ok(text_of(alloc, &shape)?)
}

// What is printed for a shape.
fn text_of(alloc: Global, shape: &Shape) -> Result<Vec<u8>, AllocError>
    ensures { IfOk result (λ text. text.items ≡ text_of shape.now) }
{
    let verdicts = judge(alloc, shape)?;
    report(alloc, shape, &verdicts)
}
