//! What was decided last on a frame on its way to a listener.

ghost use Rattle.std.specs.Prelude.{◌≡◌, ◌≤◌, ◌<◌, ◌-◌, length, slice_index_or};
ghost use Rattle.ats_network.specs.Network.{IsNetwork, senders_of};
ghost use Rattle.ats_network.specs.Senders.{sender_at};
ghost use Rattle.ats_streams.specs.Branches.{no_branch};
ghost use Rattle.ats_trace.specs.Journey.{IsJourney, legs_in};
ghost use Rattle.ats_trace.specs.Stored.{travel_at};
ghost use Rattle.ats_trace.specs.Ways.{way_to};
ghost use Rattle.ats_run_records.specs.LastVerdict.{last_verdict};

use crate::ended::Ended;
use ats_group::Verdict;
use ats_network::{Network, Sender};

// What was decided last on a frame of a run on its way to the listener of a leg: on the leg, or, where the frame never
// came there, on that off which the leg branches.
pub(crate) fn last_verdict<R: Ended>(
    network: &Network,
    run: &R,
    frame: u32,
    leg: u32,
) -> Option<Verdict>
    requires frame { frame < length (R.run run.now) }
    requires leg { leg < length (legs_in (travel_at (R.run run.now) frame)) }
    requires journey { IsJourney network.now (travel_at (R.run run.now) frame) }
    ensures { result ≡ last_verdict (way_to (sender_at network.now (travel_at (R.run run.now) frame).release.sender)
        (travel_at (R.run run.now) frame) leg).hops }
{
    let mut leg = leg;
    while leg > 0 {
        let last = run.last_of(frame, leg);
        if last.is_some() {
            return last;
        }
        leg = parent_of(network, run.release_of(frame).sender, leg);
    }
    run.last_of(frame, leg)
}

// The leg off which another one of a sender, a branch, branches.
fn parent_of(network: &Network, sender: u32, leg: u32) -> u32
    requires sender { sender < length (senders_of network.now) }
    requires leg { (1 ≤ leg) × (leg ≤ length (sender_at network.now sender).branches) }
    ensures leg { result ≡ (slice_index_or (sender_at network.now sender).branches (leg - 1) no_branch).leg }
    ensures rules { IsNetwork network.now }
{
    match network.sender(sender) {
        Sender::Stream(stream) => stream.branch(leg).leg,
        Sender::Flow(_) => 0,
    }
}
