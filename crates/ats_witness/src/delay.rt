//! The greatest delay of a sender in a run.

ghost use Rattle.std.specs.Prelude.{◌≡◌, ◌↔◌, ◌<◌, length, IsNone, IfSome};
ghost use Rattle.ats_trace.specs.Stored.{leg_in, travel_at};
ghost use Rattle.ats_witness.specs.Delay.{IsGreatestDelay, NoneArrived};
ghost use Rattle.ats_witness.specs.Longest.{greater, longest_of, took_of};

use ats_trace::{Ending, Run};

/// The longest that a frame of a sender took in a run, from its release to one of its listeners, that of a leg counted
/// from 0, in picoseconds; `None` exactly where none of its frames reached the listener. It takes no memory, and looks
/// at each frame once.
pub fn worst(run: &Run, sender: u32, listener: u32) -> Option<u64>
    ensures greatest { IfSome result (IsGreatestDelay run.now sender listener) }
    ensures none { IsNone result ↔ NoneArrived run.now sender listener }
{
    longest_of(run, sender, listener)
}

// The longest that one of the frames of a run took, of a sender to a listener.
fn longest_of(run: &Run, sender: u32, listener: u32) -> Option<u64>
    ensures { result ≡ longest_of sender listener run.now }
{
    let mut longest = None;
    for frame in 0..run.len() as u32 {
        longest = greater(longest, took(run, frame, sender, listener));
    }
    longest
}

// How long a frame took to a listener, if it is one of the sender and came there.
fn took(run: &Run, frame: u32, sender: u32, listener: u32) -> Option<u64>
    requires { frame < length run.now }
    ensures { result ≡ took_of sender listener (travel_at run.now frame) }
{
    let release = &run.journeys()[frame as usize].release;
    if release.sender != sender {
        return None;
    }
    match ending_at(run, frame, listener) {
        Ending::Sink(at) => Some(at.0.saturating_sub(release.at.0)),
        Ending::Discard => None,
    }
}

// How a frame ended at a listener: it did not come to one that it does not have.
fn ending_at(run: &Run, frame: u32, listener: u32) -> Ending
    requires { frame < length run.now }
    ensures { result ≡ (leg_in (travel_at run.now frame) listener).ending }
{
    if listener >= run.legs(frame) {
        return Ending::Discard;
    }
    run.ending_of(frame, listener)
}

// The greater of two numbers, of those that are there.
fn greater(a: Option<u64>, b: Option<u64>) -> Option<u64>
    ensures { result ≡ greater a b }
{
    match (a, b) {
        (Some(x), Some(y)) => Some(x.max(y)),
        (Some(_), None) => a,
        (None, _) => b,
    }
}
