//! What becomes of a frame, and of its port, when the frame is sent.

ghost use Rattle.std.specs.Prelude.{◌≡◌, ◌+◌, ◌<◌, ◌≤◌, length, slice_set};
ghost use Rattle.std.specs.Option.{option_to_list};
ghost use Rattle.ats_num.specs.declared.time.TheConstants.{END};
ghost use Rattle.ats_num.specs.declared.pace.TheConstants.{MAX_SPREAD};
ghost use Rattle.ats_topology.specs.Port.{port_at, spread_of};
ghost use Rattle.ats_network.specs.Network.{senders_of};
ghost use Rattle.ats_run_records.specs.Progress.{progress_at, with_leg};
ghost use Rattle.ats_engine_steps.specs.Course.{sender_of};
ghost use Rattle.ats_engine_steps.specs.Paces.{arrival_behind};
ghost use Rattle.ats_engine_steps.specs.Ports.{IsTurn};
ghost use Rattle.ats_engine_steps.specs.Steps.{leaves_for, selections};

use crate::event::Event;
use crate::stage::Stage;
use crate::stages::Stages;
use crate::turn::Turn;
use ats_events::Moment;
use ats_network::Network;
use ats_num::{Pace, Ps, Tie};
use ats_run_records::{Records, Store};
use ats_topology::Port as Link;
use ats_trace::Ending;
use ats_transmit::Port;

/// When a frame arrives behind a port that sends it until `end`, where the next frame may arrive
/// from `from` on.
pub(crate) fn arrival_behind<P: Pace>(link: &Link, pace: &P, frame: u32, end: Ps, from: Ps) -> Ps
    requires spread { spread_of link.now ≤ MAX_SPREAD }
    requires earliest { link.now.earliest.0 ≤ END }
    requires end { end.0 ≤ END }
    requires from { from.0 ≤ END }
    ensures value { result.0 ≡ arrival_behind (P.wait pace.now) link.now frame end.0 from.0 }
    ensures bounded { result.0 ≤ END + END + MAX_SPREAD }
{
    let wait = pace.wait(frame, link.spread());
    let soonest = end.0 + link.earliest.0 + wait;
    Ps(soonest.max(from.0))
}

/// The port with a number.
pub(crate) fn link_of(net: &Network, port: u32) -> Link
    requires { port < length net.now.topology.ports }
    ensures { result ≡ port_at net.now.topology.ports port }
{
    net.topology().ports()[port as usize]
}

/// What a port does next, once its last transmission is finished.
pub(crate) fn turn_of<T: Tie>(port: &Port<T>) -> Turn
    ensures { IsTurn port.now result }
{
    match port.due() {
        Some(at) => Turn::Selecting(at),
        None => Turn::Resting,
    }
}

/// The selection that a port's turn brings.
pub(crate) fn selection_of(port: u32, turn: Turn) -> Option<(Moment, Event)>
    ensures { option_to_list result ≡ selections port turn }
{
    match turn {
        Turn::Selecting(at) => Some(Event::Selection(port).at(at)),
        Turn::Resting => None,
    }
}

/// A frame that is sent along a leg arrives behind the port at this time: at the next port of the leg, or at
/// the leg's listener.
pub(crate) fn leave<S: Store>(
    net: &Network,
    stages: &mut Stages,
    records: &mut Records<S>,
    row: u32,
    at: Ps,
) -> Option<(Moment, Event)>
    requires stages { row < length stages.old }
    requires records { row < length records.old.legs }
    requires sender { (progress_at records.old.legs row).release.sender < length (senders_of net.now) }
    requires leg { (progress_at records.old.legs row).leg
        ≤ length (sender_of net.now (progress_at records.old.legs row)).branches }
    ensures stages { stages.new ≡ slice_set stages.old row
        (leaves_for net.now row (progress_at records.old.legs row) at).stage }
    ensures records { records.new ≡ with_leg records.old row
        (leaves_for net.now row (progress_at records.old.legs row) at).progress }
    ensures entries { option_to_list result ≡ (leaves_for net.now row (progress_at records.old.legs row) at).entries }
{
    let release = records.release(row);
    let hops = records.hops(row) as usize;
    let ports = net.sender_leg(release.sender, records.leg(row)).len();
    if hops == ports {
        records.close(row, Ending::Sink(at));
        stages.set(row, Stage::Over);
        return None;
    }
    stages.set(row, Stage::Coming(at));
    Some(Event::Arrival(row).at(at))
}
