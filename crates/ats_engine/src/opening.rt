//! Where a run begins.

ghost use Rattle.std.specs.Prelude.{◌≡◌, ◌-◌, ◌≤◌, ◌++◌, IfOk, map, length, replicate};
ghost use Rattle.ats_trace.specs.declared.journey.Release.{Release};
ghost use Rattle.ats_trace.specs.Releases.{AreReleases, HaveFewPorts};
ghost use Rattle.ats_run_records.specs.Progress.{opened};
ghost use Rattle.ats_engine_steps.specs.declared.stage.Stage.TheVariants.{Apart, Coming};
ghost use Rattle.ats_engine.specs.Starts.{AreReleased};
ghost use Rattle.ats_engine.specs.Rooms.{AreOpened};
ghost use Rattle.ats_engine.specs.Told.{agenda_told};

use crate::rooms::{counts_of, rooms_at};
use ats_engine_steps::{Event, Stage, Stages, Turn};
use ats_events::{Agenda, TimeOrder};
use ats_group::Groups;
use ats_network::Network;
use ats_num::{Pace, Ps, Tie};
use ats_schedulers::Schedulers;
use ats_trace::Release;
use ats_transmit::Port;
use std::alloc::{AllocError, Global};

/// All of a run of releases, in which nothing has happened yet, but its records.
#[derive(Drop)]
pub(crate) struct Opening<'a, T: Tie, O: TimeOrder, P: Pace> {
    pub(crate) network: &'a Network,
    pub(crate) schedulers: Schedulers<'a>,
    pub(crate) pace: P,
    pub(crate) stages: Stages,
    pub(crate) ports: Vec<Port<T>>,
    pub(crate) turns: Vec<Turn>,
    pub(crate) arrives_from: Vec<Ps>,
    pub(crate) groups: Groups,
    pub(crate) tie: T,
    pub(crate) agenda: Agenda<O, ()>,
}

impl<'a, T: Tie, O: TimeOrder, P: Pace> Opening<'a, T, O, P> {
    ghost use Rattle.ats_engine.specs.Opening.{IsOpening, given_to};

    /// That of a run of these releases.
    pub(crate) fn of(
        alloc: Global,
        net: &'a Network,
        releases: &[Release],
        tie: T,
        order: O,
        pace: P,
    ) -> Result<Self, AllocError>
        requires releases { AreReleases net.now releases.now }
        requires few_ports { HaveFewPorts net.now releases.now }
        ensures opens { IfOk result (IsOpening releases.now) }
        ensures given { IfOk result (λ opening. given_to opening releases.now ≡ record {
          network = net.now;
          releases = releases.now;
          tie = tie;
          order = order;
          pace = pace;
        }) }
    {
        let schedulers = Schedulers::new(alloc, net)?;
        let legs = legs_of(net, releases);
        let count = net.topology().ports().len();
        Ok(Opening {
            network: net,
            stages: stages_of(releases, legs),
            ports: ports_of(alloc, net, releases, tie)?,
            turns: vec![in alloc; Turn::Resting; count]?,
            arrives_from: vec![in alloc; Ps(0); count]?,
            groups: Groups::open(alloc, schedulers.residences(), schedulers.members())?,
            agenda: agenda_of(alloc, net, releases, legs, order)?,
            schedulers,
            pace,
            tie,
        })
    }
}

/// How many legs frames with these releases have together.
fn legs_of(net: &Network, releases: &[Release]) -> usize
    requires releases { AreReleases net.now releases.now }
    requires few_ports { HaveFewPorts net.now releases.now }
    ensures { result ≡ length (opened net.now releases.now).legs }
{
    let _rules = net.topology(); // for what a network keeps
    let mut legs = releases.len();
    for release in releases {
        legs += net.sender_legs(release.sender) as usize - 1;
    }
    legs
}

/// Each frame comes to the first port of its trunk when it is released, and has not come to where its branches begin;
/// there are so many legs.
fn stages_of(releases: &[Release], legs: usize) -> Stages
    requires { length releases.now ≤ legs }
    ensures { result ≡ map (λ (r : Release). Coming r.at) releases.now
        ++ replicate (legs - length releases.now) Apart }
{
    let mut stages = Stages::new();
    for release in releases {
        stages.push(Stage::Coming(release.at));
    }
    for _ in releases.len()..legs {
        stages.push(Stage::Apart);
    }
    stages
}

/// The ports of a network, each with room for all frames of these releases that pass it.
fn ports_of<T: Tie>(
    alloc: Global,
    net: &Network,
    releases: &[Release],
    tie: T,
) -> Result<Vec<Port<T>>, AllocError>
    requires releases { AreReleases net.now releases.now }
    ensures { IfOk result (λ ports. AreOpened net.now releases.now tie ports.items) }
{
    let counts = counts_of(alloc, net, releases)?;
    let links = net.topology().ports();
    let mut ports = Vec::with_capacity(alloc, links.len())?;
    for (port, link) in links.iter().enumerate() {
        let rooms = rooms_at(&counts, port);
        ports.push(Port::open(alloc, link.ps_per_bit, rooms, tie)?)?;
    }
    Ok(ports)
}

/// An agenda in which each frame comes to its first port when it is released, and which has room
/// for an entry of each of so many legs and each port.
fn agenda_of<O: TimeOrder>(
    alloc: Global,
    net: &Network,
    releases: &[Release],
    legs: usize,
    order: O,
) -> Result<Agenda<O, ()>, AllocError>
    requires releases { AreReleases net.now releases.now }
    requires few_ports { HaveFewPorts net.now releases.now }
    requires legs { legs ≡ length (opened net.now releases.now).legs }
    ensures { IfOk result (λ agenda. AreReleased net.now releases.now order (agenda_told agenda)) }
{
    let capacity = legs + net.topology().ports().len();
    let mut agenda = Agenda::open(alloc, capacity as u32, order)?;
    for (frame, release) in releases.iter().enumerate() {
        let (moment, _event) = Event::Arrival(frame as u32).at(release.at);
        agenda.insert(moment, ());
    }
    Ok(agenda)
}
