//! Shape files as bytes.

ghost use Rattle.std.specs.Prelude.{◌≤◌, length};
ghost use Rattle.ats_num.specs.Failure.{Gives};
ghost use Rattle.ats_shape.specs.Reading.{shape_of};

use crate::draft::Draft;
use crate::fault::ShapeFault;
use crate::shape::Shape;
use ats_io::line_at;
use ats_num::Failure;
use std::alloc::Global;

/// The shape that a text declares, or its first fault with its line, counted from 1.
pub fn read_shape(alloc: Global, bytes: &[u8]) -> Result<Shape, Failure<ShapeFault>>
    requires { length bytes.now ≤ 16777216 }
    ensures { Gives result (shape_of bytes.now) }
{
    let mut draft = Draft::new(alloc);
    let mut number = 1;
    let mut at = 0;
    while at < bytes.len() {
        let (end, next) = line_at(bytes, at);
        let said = draft.line_in(number, &bytes[at..end])?;
        draft.add(said)?;
        number += 1;
        at = next;
    }
    Ok(draft.finish(number)?)
}
