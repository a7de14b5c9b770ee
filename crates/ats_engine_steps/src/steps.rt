//! What each kind of event makes of a run. Each function gives what is to happen then.

ghost use Rattle.std.specs.Prelude.{◌≡◌, ◌<◌, ◌≤◌, ◌++◌, length, IsTrue};
ghost use Rattle.std.specs.Option.{option_to_list};
ghost use Rattle.ats_network.specs.Network.{senders_of};
ghost use Rattle.ats_trace.specs.Stored.{row_of};
ghost use Rattle.ats_run_records.specs.Progress.{progress_at};
ghost use Rattle.ats_engine_steps.specs.Conditions.{HasRoom, MayComeNow, MayBeOffered, MaySelect};
ghost use Rattle.ats_engine_steps.specs.Course.{sender_of};
ghost use Rattle.ats_engine_steps.specs.Seen.{course_of};
ghost use Rattle.ats_engine_steps.specs.Steps.{BecomesEligible, Comes, Selects, begins_in, entered, row_begun};

use crate::event::Event;
use crate::judging::judge;
use crate::leaving::{arrival_behind, leave, link_of, selection_of, turn_of};
use crate::legs::{begins, leg_with};
use crate::offering::{offer_of, place_of};
use crate::stage::Stage;
use crate::state::State;
use crate::turn::Turn;
use ats_events::Moment;
use ats_group::Verdict;
use ats_network::Network;
use ats_num::{Pace, Ps, Tie};
use ats_run_records::{Records, Store};
use ats_schedulers::Schedulers;
use ats_trace::HopRecord;
use ats_transmit::Pick;

/// A frame comes to the next port of a leg: the node decides on it, once, and it becomes eligible at the time
/// that this gives, along this leg and each that begins there, or is discarded.
pub fn come<T: Tie, S: Store>(
    net: &Network,
    schedulers: &Schedulers,
    state: &mut State<T, S>,
    now: Moment,
    row: u32,
) -> Option<Ps>
    requires schedulers { schedulers.now ≡ net.now }
    requires may_come { MayComeNow net.now (course_of state.old) now.at.0 row }
    ensures { Comes net.now (course_of state.old) (course_of state.new) now row result }
{
    let verdict = judge(
        net,
        schedulers,
        &state.records,
        &mut state.groups,
        now.at,
        row,
    );
    let sender = state.records.release(row).sender;
    let hop = state.records.hops(row);
    enter(state, row, now.at, verdict);
    for copy in 1..net.sender_legs(sender) {
        if let Some(other) = row_begun(net, &state.records, row, hop, copy) {
            enter(state, other, now.at, verdict);
        }
    }
    state.last = now;
    match verdict {
        Verdict::Eligible(at) => Some(at),
        Verdict::Late(_) => None,
        Verdict::Size => None,
    }
}

/// The row of the copy of a frame with a leg's number, where that leg begins at a hop of the leg of this row.
pub fn row_begun<S: Store>(
    net: &Network,
    records: &Records<S>,
    row: u32,
    hop: u32,
    copy: u32,
) -> Option<u32>
    requires row { row < length records.now.legs }
    requires sender { (progress_at records.now.legs row).release.sender < length (senders_of net.now) }
    requires frame { (progress_at records.now.legs row).frame < length records.now.firsts }
    requires copy { (1 ≤ copy) × (copy ≤ length (sender_of net.now (progress_at records.now.legs row)).branches) }
    requires there { IsTrue (begins_in net.now (progress_at records.now.legs row) hop copy)
        → row_of records.now.firsts (progress_at records.now.legs row).frame copy < length records.now.legs }
    ensures { result ≡ row_begun net.now records.now.firsts (progress_at records.now.legs row) hop copy }
{
    let leg = records.leg(row);
    if begins(net, records.release(row).sender, copy, leg, hop) {
        return Some(records.row_of(records.frame(row), copy));
    }
    None
}

// A frame that came at this time with this verdict gets a hop record along a leg.
fn enter<T: Tie, S: Store>(state: &mut State<T, S>, row: u32, at: Ps, verdict: Verdict)
    requires stages { row < length state.old.stages }
    requires room { HasRoom state.old.records.legs row }
    ensures { course_of state.new ≡ entered (course_of state.old) row at verdict }
{
    state.records.push(row, HopRecord::new(at, verdict));
    let stage = match verdict {
        Verdict::Eligible(eligible) => Stage::Due(eligible),
        Verdict::Late(_) => Stage::Over,
        Verdict::Size => Stage::Over,
    };
    state.stages.set(row, stage);
}

/// A frame becomes eligible along a leg: its port holds it from now on, and where the port has rested it
/// selects at the moment that this gives.
pub fn become_eligible<T: Tie, S: Store>(
    net: &Network,
    state: &mut State<T, S>,
    now: Moment,
    row: u32,
) -> Option<(Moment, Event)>
    requires { MayBeOffered net.now (course_of state.old) now.at.0 row }
    ensures { BecomesEligible T.key net.now (course_of state.old) (course_of state.new) now row
        (option_to_list result) }
{
    let offer = offer_of(net, &state.records, row);
    let port = place_of(net, &state.records, row);
    state.stages.set(row, Stage::Waiting);
    state.last = now;
    let turn = state.turns[port as usize];
    let standing = &mut state.ports[port as usize];
    standing.offer(offer);
    match turn {
        Turn::Resting => {
            let Some(at) = standing.due() else {
                unreachable!()
            };
            state.turns[port as usize] = Turn::Selecting(at);
            Some(Event::Selection(port).at(at))
        },
        Turn::Selecting(_) => None,
    }
}

/// A port selects: one of the frames that it holds is sent from now on, along the leg that has the port. This gives the
/// moment at which the frame arrives behind the port, where that is at a port; and the moment at which the port selects
/// again, where it holds a frame.
pub fn select<T: Tie, P: Pace, S: Store>(
    net: &Network,
    state: &mut State<T, S>,
    pace: &P,
    now: Moment,
    port: u32,
) -> (Option<(Moment, Event)>, Option<(Moment, Event)>)
    requires { MaySelect net.now (course_of state.old) now.at.0 port }
    ensures { Selects T.key (P.wait pace.now) net.now (course_of state.old) (course_of state.new) now port
        (option_to_list result.0 ++ option_to_list result.1) }
{
    let standing = &mut state.ports[port as usize];
    let pick = standing.select(now.at);
    let Pick::Start { frame, end } = pick else {
        unreachable!()
    };
    standing.finish(end);
    let turn = turn_of(standing);
    state.turns[port as usize] = turn;
    let leg = leg_with(net, state.records.release(frame).sender, port);
    let row = state.records.row_of(frame, leg);
    state.records.send(row, now.at, end);
    let link = link_of(net, port);
    let from = state.arrives_from[port as usize];
    let at = arrival_behind(&link, pace, frame, end, from);
    state.arrives_from[port as usize] = Ps(at.0 + 1);
    state.last = now;
    let arrival = leave(net, &mut state.stages, &mut state.records, row, at);
    (arrival, selection_of(port, turn))
}
