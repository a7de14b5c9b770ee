//! The verdicts on the frames of a shape.

ghost use Rattle.std.specs.Prelude.{◌≡◌, IfOk, length, map};
ghost use Rattle.ats_shape.specs.Verdicts.{member_of};
ghost use Rattle.ats_lrq_shape.specs.Verdicts.{lrq_verdicts_on, lrq_text_of};

use ats_group::{Member, Verdict};
use ats_lrq::LrqGroups;
use ats_shape::{Shape, ShapeStream};
use std::alloc::{AllocError, Global};

/// What is printed for a shape: a line for each frame with its verdict, then a line of totals. `AllocError` where
/// memory runs out.
pub fn report(alloc: Global, shape: &Shape) -> Result<Vec<u8>, AllocError>
    ensures { IfOk result (λ text. text.items ≡ lrq_text_of shape.now) }
{
    let verdicts = judge(alloc, shape)?;
    ats_shape::report(alloc, shape, &verdicts)
}

/// The verdict on each frame of a shape, in order: the streams are the members of one group. `AllocError` where memory
/// runs out.
pub fn judge(alloc: Global, shape: &Shape) -> Result<Vec<Verdict>, AllocError>
    ensures verdicts { IfOk result (λ verdicts. verdicts.items ≡ lrq_verdicts_on shape.now) }
    ensures each { IfOk result (λ verdicts. length verdicts.items ≡ length shape.now.frames) }
{
    let members = members(alloc, shape.streams())?;
    let residences = [shape.residence_ns()];
    let mut groups = LrqGroups::open(alloc, &residences, &members)?;
    let frames = shape.frames();
    let mut verdicts = Vec::with_capacity(alloc, frames.len())?;
    for frame in frames {
        verdicts.push(groups.process(frame.stream, frame.at, frame.octets))?;
    }
    Ok(verdicts)
}

fn members(alloc: Global, streams: &[ShapeStream]) -> Result<Vec<Member>, AllocError>
    ensures { IfOk result (λ members. members.items ≡ map member_of streams.now) }
{
    let members = streams
        .iter()
        .map(|stream| Member {
            group: 0,
            declared: stream.declared,
        })
        .collect(alloc)?;
    Ok(members)
}
