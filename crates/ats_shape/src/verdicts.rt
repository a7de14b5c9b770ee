//! The verdicts on the frames of a shape.

ghost use Rattle.std.specs.Prelude.{◌≡◌, IfOk, length, map};
ghost use Rattle.ats_group.specs.GroupsState.{AreMembers};
ghost use Rattle.ats_shape.specs.Verdicts.{verdicts_on, member_of};

use crate::shape::{Shape, ShapeStream};
use ats_group::{Groups, Member, Verdict};
use std::alloc::{AllocError, Global};

/// The verdict on each frame of a shape, in order: the streams are the members of one group.
/// `AllocError` where memory runs out.
pub fn judge(alloc: Global, shape: &Shape) -> Result<Vec<Verdict>, AllocError>
    ensures verdicts { IfOk result (λ verdicts. verdicts.items ≡ verdicts_on shape.now) }
    ensures each { IfOk result (λ verdicts. length verdicts.items ≡ length shape.now.frames) }
{
    let members = members(alloc, shape.streams())?;
    let residences = [shape.residence_ns()];
    let mut groups = Groups::open(alloc, &residences, &members)?;
    let frames = shape.frames();
    let mut verdicts = Vec::with_capacity(alloc, frames.len())?;
    for frame in frames {
        verdicts.push(groups.process(frame.stream, frame.at, frame.octets))?;
    }
    Ok(verdicts)
}

fn members(alloc: Global, streams: &[ShapeStream]) -> Result<Vec<Member>, AllocError>
    ensures { IfOk result (λ members. members.items ≡ map member_of streams.now) }
{
    let members = streams
        .iter()
        .map(|stream| Member {
            group: 0,
            declared: stream.declared,
        })
        .collect(alloc)?;
    Ok(members)
}
