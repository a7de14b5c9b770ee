//! How many frames there were, and how they ended.

ghost use Rattle.std.specs.Prelude.{◌≡◌, ◌+◌, ◌++◌, ◌<◌, ◌≤◌, false, length, take, All, OnOk};
ghost use Rattle.std.specs.Option.{option_map_or};
ghost use Rattle.ats_network.specs.Senders.{sender_at};
ghost use Rattle.ats_trace.specs.Journey.{IsJourney, legs_in};
ghost use Rattle.ats_trace.specs.Stored.{travel_at};
ghost use Rattle.ats_trace.specs.Ways.{way_to};
ghost use Rattle.ats_trace.specs.declared.run.TheConstants.{MAX_FRAMES};
ghost use Rattle.ats_replay.specs.Inside.{HaveRoom, with_way};
ghost use Rattle.ats_replay.specs.Totals.{counts_text, is_late_verdict, is_size_verdict, is_sunk};
ghost use Rattle.ats_replay.specs.Totals.{totals_line, totals_of};

use crate::ended::Ended;
use crate::lines::write_number;
use crate::ways::last_verdict;
use ats_group::Verdict;
use ats_network::Network;
use ats_trace::Ending;
use std::alloc::AllocError;

/// Numbers of frames, and of their listeners.
#[derive(Clone, Copy, Debug, PartialEq, Eq)]
pub struct Totals {
    /// All frames.
    pub frames: u32,
    /// For how many listeners of each, counted together, it arrived.
    pub sunk: u64,
    /// For how many it was discarded since it would have been eligible too late.
    pub late: u64,
    /// For how many it was discarded for its octets.
    pub size: u64,
}

// Of no frame.
pub(crate) const NO_FRAMES: Totals = Totals {
    frames: 0,
    sunk: 0,
    late: 0,
    size: 0,
};

/// The totals of a run: of each frame and each of its listeners one of the last three counts one. Condition: each frame
/// goes along its sender's legs (`IsJourney`), as in every legal run. It takes time linear in the legs of the frames.
pub fn totals_of<R: Ended>(network: &Network, run: &R) -> Totals
    requires { All (IsJourney network.now) (R.run run.now) }
    ensures { result ≡ totals_of network.now (R.run run.now) }
{
    let mut totals = NO_FRAMES;
    for frame in 0..run.len() as u32 {
        add_ways(&mut totals, network, run, frame);
    }
    totals
}

// Counts a frame of a run, and its ways to its listeners.
fn add_ways<R: Ended>(totals: &mut Totals, network: &Network, run: &R, frame: u32)
    requires frame { frame < length (R.run run.now) }
    requires few { length (R.run run.now) ≤ MAX_FRAMES }
    requires journeys { All (IsJourney network.now) (R.run run.now) }
    requires so_far { totals.old ≡ totals_of network.now (take frame (R.run run.now)) }
    ensures { totals.new ≡ totals_of network.now (take (frame + 1) (R.run run.now)) }
{
    let _rules = network.topology(); // for what a network keeps
    totals.frames += 1;
    for leg in 0..run.legs(frame) {
        *totals = with_way(totals, network, run, frame, leg);
    }
}

// The totals with one way more, that of a frame of a run to the listener of a leg.
pub(crate) fn with_way<R: Ended>(
    totals: &Totals,
    network: &Network,
    run: &R,
    frame: u32,
    leg: u32,
) -> Totals
    requires frame { frame < length (R.run run.now) }
    requires leg { leg < length (legs_in (travel_at (R.run run.now) frame)) }
    requires journey { IsJourney network.now (travel_at (R.run run.now) frame) }
    requires room { HaveRoom totals.now }
    ensures { result ≡ with_way totals.now
        (way_to (sender_at network.now (travel_at (R.run run.now) frame).release.sender)
        (travel_at (R.run run.now) frame) leg) }
{
    let ending = run.ending_of(frame, leg);
    let last = last_verdict(network, run, frame, leg);
    Totals {
        frames: totals.frames,
        sunk: totals.sunk + u64::from(is_sunk(&ending)),
        late: totals.late + u64::from(is_late(last)),
        size: totals.size + u64::from(is_oversize(last)),
    }
}

// Whether a frame arrived at a listener.
fn is_sunk(ending: &Ending) -> bool
    ensures { result ≡ is_sunk ending.now }
{
    match ending {
        Ending::Sink(_) => true,
        Ending::Discard => false,
    }
}

// Whether the last verdict is that the frame would be eligible too late.
fn is_late(last: Option<Verdict>) -> bool
    ensures { result ≡ option_map_or is_late_verdict last false }
{
    matches!(last, Some(Verdict::Late(_)))
}

// Whether it is that the frame's octets are not allowed.
fn is_oversize(last: Option<Verdict>) -> bool
    ensures { result ≡ option_map_or is_size_verdict last false }
{
    matches!(last, Some(Verdict::Size))
}

// Appends the numbers of frames.
pub(crate) fn write_counts(out: &mut Vec<u8>, totals: &Totals) -> Result<(), AllocError>
    ensures { OnOk result (out.new.items ≡ out.old.items ++ counts_text totals.now) }
{
    write_number(out, b"frames ", totals.frames)?;
    write_number(out, b" sunk ", totals.sunk)?;
    write_number(out, b" late ", totals.late)?;
    write_number(out, b" size ", totals.size)?;
    Ok(())
}

// Appends the line of totals.
#[tactic(auto, unfolding(crate::specs::Totals::totals_line))]
pub(crate) fn write_totals(out: &mut Vec<u8>, totals: &Totals) -> Result<(), AllocError>
    ensures { OnOk result (out.new.items ≡ out.old.items ++ totals_line totals.now) }
{
    out.extend_from_slice(b"total ")?;
    write_counts(out, totals)?;
    out.extend_from_slice(b"\n")?;
    Ok(())
}
