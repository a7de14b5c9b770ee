//! What came of the frames of each sender for each of its listeners.

ghost use Rattle.std.specs.Prelude.{◌≡◌, ◌+◌, ◌<◌, ◌≤◌, length, map, take, All, IfOk};
ghost use Rattle.std.specs.List.{range_with_len};
ghost use Rattle.ats_network.specs.Network.{senders_of};
ghost use Rattle.ats_network.specs.Senders.{sender_at};
ghost use Rattle.ats_trace.specs.Journey.{IsJourney, legs_in};
ghost use Rattle.ats_trace.specs.Stored.{travel_at};
ghost use Rattle.ats_trace.specs.Ways.{way_to};
ghost use Rattle.ats_trace.specs.declared.run.TheConstants.{MAX_FRAMES};
ghost use Rattle.ats_replay.specs.Inside.{AreSummaries, HaveRoom, with_frame};
ghost use Rattle.ats_replay.specs.Summary.{delay_to, first_of};

use crate::ended::Ended;
use crate::totals::{NO_FRAMES, Totals, with_way};
use ats_network::Network;
use ats_num::Ps;
use ats_trace::Ending;
use std::alloc::{AllocError, Global};

/// What came of the frames of one sender for one of its listeners.
#[derive(Clone, Copy, Debug, PartialEq, Eq)]
pub struct Summary {
    /// How many there were, and how their ways to the listener ended.
    pub totals: Totals,
    /// The longest that one of them took from its release to the listener; 0 where none arrived.
    pub worst: Ps,
}

// The place of each sender's first listener among those of all senders, sender by sender, and the number of them all.
pub(crate) fn firsts_of(alloc: Global, network: &Network) -> Result<Vec<usize>, AllocError>
    ensures { IfOk result (λ firsts. firsts.items
        ≡ map (first_of network.now) (range_with_len 0 (length (senders_of network.now) + 1))) }
{
    let senders = network.senders();
    let mut firsts = Vec::with_capacity(alloc, senders as usize + 1)?;
    let mut first = 0usize;
    for sender in 0..senders {
        firsts.push(first)?;
        first += network.sender_legs(sender) as usize;
    }
    firsts.push(first)?;
    Ok(firsts)
}

// What came of the frames of each sender of a network for each of its listeners, whose places begin at these.
pub(crate) fn summarize<R: Ended>(
    alloc: Global,
    network: &Network,
    run: &R,
    firsts: &[usize],
) -> Result<Vec<Summary>, AllocError>
    requires journeys { All (IsJourney network.now) (R.run run.now) }
    requires firsts { firsts.now ≡ map (first_of network.now) (range_with_len 0 (length (senders_of network.now) + 1)) }
    ensures { IfOk result (λ summaries. AreSummaries network.now (R.run run.now) summaries.items) }
{
    let all = firsts[network.senders() as usize];
    let mut summaries = vec![in alloc; Summary {
        totals: NO_FRAMES,
        worst: Ps(0)
    }; all]?;
    for frame in 0..run.len() as u32 {
        let sender = run.release_of(frame).sender as usize;
        add_frame(&mut summaries, firsts[sender], network, run, frame);
    }
    Ok(summaries)
}

// Counts a frame of a run for each listener of its sender, whose summaries begin at this place.
fn add_frame<R: Ended>(
    summaries: &mut Vec<Summary>,
    first: usize,
    network: &Network,
    run: &R,
    frame: u32,
)
    requires frame { frame < length (R.run run.now) }
    requires few { length (R.run run.now) ≤ MAX_FRAMES }
    requires journeys { All (IsJourney network.now) (R.run run.now) }
    requires first { first ≡ first_of network.now (travel_at (R.run run.now) frame).release.sender }
    requires so_far { AreSummaries network.now (take frame (R.run run.now)) summaries.old.items }
    ensures { AreSummaries network.now (take (frame + 1) (R.run run.now)) summaries.new.items }
{
    let _rules = network.topology(); // for what a network keeps
    for leg in 0..run.legs(frame) {
        let place = first + leg as usize;
        summaries[place] = with_frame(&summaries[place], network, run, frame, leg);
    }
}

// A summary with one frame of a run more, for the listener of a leg.
fn with_frame<R: Ended>(
    summary: &Summary,
    network: &Network,
    run: &R,
    frame: u32,
    leg: u32,
) -> Summary
    requires frame { frame < length (R.run run.now) }
    requires leg { leg < length (legs_in (travel_at (R.run run.now) frame)) }
    requires journey { IsJourney network.now (travel_at (R.run run.now) frame) }
    requires room { HaveRoom summary.now.totals }
    ensures { result ≡ with_frame summary.now (travel_at (R.run run.now) frame).release.at.0
        (way_to (sender_at network.now (travel_at (R.run run.now) frame).release.sender)
        (travel_at (R.run run.now) frame) leg) }
{
    let release = run.release_of(frame).at.0;
    let delay = delay_to(release, &run.ending_of(frame, leg));
    let ways = with_way(&summary.totals, network, run, frame, leg);
    Summary {
        totals: Totals {
            frames: ways.frames + 1,
            ..ways
        },
        worst: Ps(summary.worst.0.max(delay)),
    }
}

// How long a frame of this release took to a listener.
fn delay_to(release: u64, ending: &Ending) -> u64
    ensures { result ≡ delay_to release ending.now }
{
    match ending {
        Ending::Sink(at) => at.0.saturating_sub(release),
        Ending::Discard => 0,
    }
}
