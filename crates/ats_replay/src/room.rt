//! The room that the text of a run takes.

ghost use Rattle.std.specs.Prelude.{◌*◌, ◌≤◌, ◌<◌, ◌^◌, length};

use ats_streams::path::MAX_PORTS;
use ats_trace::Run;

// The most hops of a leg that are counted.
const HOPS_COUNTED: usize = MAX_PORTS;

// The bytes of room that are taken for a line.
const LINE_BYTES: usize = 80;

// About how many bytes the lines of a run take, so that the text seldom moves while it is made.
pub(crate) fn room_of(run: &Run) -> usize {
    let mut lines = 0;
    for frame in 0..run.len() as u32 {
        lines += lines_of(run, frame);
    }
    lines * LINE_BYTES
}

// The lines of a frame.
fn lines_of(run: &Run, frame: u32) -> usize
    requires { frame < length run.now }
    ensures { result ≤ 66 * 2 ^ 32 }
{
    let mut lines = 0;
    for leg in 0..run.legs(frame) {
        lines += 2 + run.hops_of(frame, leg).len().min(HOPS_COUNTED);
    }
    lines
}
