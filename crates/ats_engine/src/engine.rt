//! The engine.

ghost use Rattle.std.specs.Prelude.{◌≡◌, IfOk};
ghost use Rattle.ats_engine_proofs.specs.InTime.{IsRunInTime};
ghost use Rattle.ats_run_records.specs.Progress.{finished};
ghost use Rattle.ats_trace.specs.Releases.{AreReleases, HaveFewPorts};
ghost use Rattle.ats_trace.specs.Run.{IsRunBy, HasReleases};
ghost use Rattle.ats_engine.specs.Opening.{MayBegin, given_to};
ghost use Rattle.ats_engine.specs.Ready.{releases_in};

use crate::opening::Opening;
use crate::runner::Runner;
use ats_engine_steps::State;
use ats_events::{Agenda, Moment, TimeOrder, drive};
use ats_network::Network;
use ats_num::{Pace, Ps, Tie};
use ats_run_records::{Brief, Ends, Records, Store, Whole};
use ats_trace::{Release, Run};
use std::alloc::{AllocError, Global};
use std::marker::Model;

/// A run of a network that is to begin, whose records are all kept, or no more of them than the run goes by. Contracts
/// see the network, the releases by frame number, the order among frames of one port, class and eligibility time, the
/// order of simultaneous events, and the pace at which frames arrive behind ports.
#[derive(Drop)]
pub struct Engine<'a, T: Tie, O: TimeOrder, P: Pace, S: Store> {
    runner: Runner<'a, T, P, S>,
    agenda: Agenda<O, ()>,
}

impl<'a, T: Tie, O: TimeOrder, P: Pace, S: Store> Model for Engine<'a, T, O, P, S> {
    ghost use Rattle.ats_engine.specs.Setting.{Setting};

    ghost Value = { Setting T O P };

    ghost use Rattle.ats_engine.specs.Opened.{setting_of, IsFirst};
    ghost use Rattle.ats_engine.specs.Told.{agenda_told};

    ghost view = { λ e. setting_of e.runner (agenda_told e.agenda) };

    ghost invariant = { λ e. IsFirst T.key P.wait e.runner (agenda_told e.agenda) };
}

impl<'a, T: Tie, O: TimeOrder, P: Pace, S: Store> Engine<'a, T, O, P, S> {
    // The engine of a run that is given by its opening and its records.
    fn begin(opening: Opening<'a, T, O, P>, records: Records<S>) -> Self
        requires { MayBegin opening records }
        ensures { result ≡ given_to opening.entry (releases_in records) }
    {
        let state = State {
            stages: opening.stages,
            records,
            ports: opening.ports,
            turns: opening.turns,
            arrives_from: opening.arrives_from,
            groups: opening.groups,
            last: Moment {
                at: Ps(0),
                phase: 0,
                id: 0,
            },
            tie: opening.tie,
        };
        let runner = Runner {
            network: opening.network,
            schedulers: opening.schedulers,
            pace: opening.pace,
            state,
        };
        Engine {
            runner,
            agenda: opening.agenda,
        }
    }

    // The records of the whole run, once each of its events was handled.
    fn records(self) -> Records<S>
        ensures by { IsRunBy (T.key self.entry.tie) (P.wait self.entry.pace) self.entry.network (finished result) }
        ensures releases { HasReleases self.entry.releases (finished result) }
        ensures in_time { IsRunInTime (finished result) }
    {
        let Engine {
            mut runner,
            mut agenda,
        } = self;
        drive(&mut runner, &mut agenda);
        let state = runner.state;
        state.records
    }
}

impl<'a, T: Tie, O: TimeOrder, P: Pace> Engine<'a, T, O, P, Whole> {
    /// A run of the network for these releases, by frame number: at most 200,000, in the order of their times, which
    /// are in picoseconds and at most 100,000 s, each of a sender of the network and of 64 to 2000 octets; and the
    /// ports of the frames are together at most 3,200,000. All memory of the run is taken here. `AllocError` where it
    /// runs out.
    pub fn open(
        alloc: Global,
        net: &'a Network,
        releases: &[Release],
        tie: T,
        order: O,
        pace: P,
    ) -> Result<Self, AllocError>
        requires releases { AreReleases net.now releases.now }
        requires few_ports { HaveFewPorts net.now releases.now }
        ensures { IfOk result (λ engine. engine ≡ record {
          network = net.now;
          releases = releases.now;
          tie = tie;
          order = order;
          pace = pace;
        }) }
    {
        let records = Records::open(alloc, net, releases)?; // first, so that what the run ends without is behind it
        let opening = Opening::of(alloc, net, releases, tie, order, pace)?;
        Ok(Engine::begin(opening, records))
    }

    /// The whole run: what happened to each frame. Each of its times is below `END`, also that of a
    /// verdict on a late frame, at which nothing happens. It takes no memory.
    pub fn run(self) -> Run
        ensures by { IsRunBy (T.key self.entry.tie) (P.wait self.entry.pace) self.entry.network result }
        ensures releases { HasReleases self.entry.releases result }
        ensures in_time { IsRunInTime result }
    {
        self.records().finish()
    }
}

impl<'a, T: Tie, O: TimeOrder, P: Pace> Engine<'a, T, O, P, Brief> {
    /// As `open`, but no hop record will be kept. The releases are kept as they are given.
    pub fn open_brief(
        alloc: Global,
        net: &'a Network,
        releases: Vec<Release>,
        tie: T,
        order: O,
        pace: P,
    ) -> Result<Self, AllocError>
        requires releases { AreReleases net.now releases.items }
        requires few_ports { HaveFewPorts net.now releases.items }
        ensures { IfOk result (λ engine. engine ≡ record {
          network = net.now;
          releases = releases.items;
          tie = tie;
          order = order;
          pace = pace;
        }) }
    {
        let opening = Opening::of(alloc, net, &releases, tie, order, pace)?;
        let records = Records::open_brief(alloc, net, releases)?;
        Ok(Engine::begin(opening, records))
    }

    /// How each frame of the whole run ended. It takes no memory.
    pub fn run_brief(self) -> Ends
        ensures by { IsRunBy (T.key self.entry.tie) (P.wait self.entry.pace) self.entry.network result }
        ensures releases { HasReleases self.entry.releases result }
        ensures in_time { IsRunInTime result }
    {
        self.records().finish_brief()
    }
}
