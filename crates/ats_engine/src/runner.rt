//! What handles the events of a run.

ghost use Rattle.std.specs.Prelude.{◌≡◌, ◌<◌, ◌∷◌, Some, All};
ghost use Rattle.ats_events.specs.declared.moment.Moment.{Moment};
ghost use Rattle.ats_engine_steps.specs.Bounds.{steps_left};
ghost use Rattle.ats_engine_steps.specs.Seen.{course_of};
ghost use Rattle.ats_engine_steps.specs.declared.event.Event.TheVariants.{Arrival, Eligibility, Selection};
ghost use Rattle.ats_engine.specs.Ready.{IsReady, IsAtEvent, Goes, Follows};
ghost use Rattle.ats_engine.specs.Told.{told, agenda_told};
ghost use Rattle.ats_engine.specs.Following.{follows-itself, follows-both, ready-permuted};

use crate::entering::{enter, enter_begun, enter_both};
use crate::offering::offer_or_leave;
use ats_engine_steps::{Event, State, become_eligible, come, select};
use ats_events::{Actor, Agenda, Moment, TimeOrder};
use ats_network::Network;
use ats_num::{Pace, Tie};
use ats_run_records::Store;
use ats_schedulers::Schedulers;

/// A run that goes on: its network and schedulers, its pace, and where it stands.
#[derive(Drop)]
pub(crate) struct Runner<'a, T: Tie, P: Pace, S: Store> {
    pub(crate) network: &'a Network,
    pub(crate) schedulers: Schedulers<'a>,
    pub(crate) pace: P,
    pub(crate) state: State<T, S>,
}

impl<'a, T: Tie, P: Pace, S: Store> Runner<'a, T, P, S> {
    /// A frame comes to the next port of a leg. Where it is eligible at once, the port is offered it at once.
    fn come<O: TimeOrder>(&mut self, now: Moment, row: u32, agenda: &mut Agenda<O, ()>)
        requires { IsAtEvent T.key P.wait O.before self.old (agenda_told agenda.old) now (Arrival row) }
        ensures { Goes T.key P.wait self.old self.new (agenda_told agenda.old) (agenda_told agenda.new) }
    {
        let hop = self.state.records.hops(row);
        let due = come(self.network, &self.schedulers, &mut self.state, now, row);
        if let Some(at) = due {
            enter_begun(agenda, self.network, &self.state.records, row, hop, at);
            let entry = offer_or_leave(self.network, &mut self.state, now, row, at);
            enter(agenda, entry);
        }
    }

    /// A frame becomes eligible along a leg.
    fn become_eligible<O: TimeOrder>(&mut self, now: Moment, row: u32, agenda: &mut Agenda<O, ()>)
        requires { IsAtEvent T.key P.wait O.before self.old (agenda_told agenda.old) now (Eligibility row) }
        ensures { Goes T.key P.wait self.old self.new (agenda_told agenda.old) (agenda_told agenda.new) }
    {
        let entry = become_eligible(self.network, &mut self.state, now, row);
        enter(agenda, entry);
    }

    /// A port selects a frame.
    fn select<O: TimeOrder>(&mut self, now: Moment, port: u32, agenda: &mut Agenda<O, ()>)
        requires { IsAtEvent T.key P.wait O.before self.old (agenda_told agenda.old) now (Selection port) }
        ensures { Goes T.key P.wait self.old self.new (agenda_told agenda.old) (agenda_told agenda.new) }
    {
        let (arrival, selection) = select(self.network, &mut self.state, &self.pace, now, port);
        enter_both(agenda, arrival, selection);
    }
}

impl<'a, T: Tie, O: TimeOrder, P: Pace, S: Store> Actor<O> for Runner<'a, T, P, S> {
    /// An entry is a moment alone, which tells the event.
    type Event = ();

    ghost left = { λ runner. steps_left (course_of runner.state) };

    ghost holds = { λ runner entries capacity _. IsReady T.key P.wait runner (told entries) capacity };

    ghost follows = { Follows };

    fn handle(&mut self, moment: Moment, _event: (), agenda: &mut Agenda<O, ()>) {
        match Event::of(moment) {
            Event::Arrival(row) => self.come(moment, row, agenda),
            Event::Eligibility(row) => self.become_eligible(moment, row, agenda),
            Event::Selection(port) => self.select(moment, port, agenda),
        }
    }

    ghost reflexive = { follows-itself };

    ghost transitive = { follows-both };

    ghost permuted = { λ runner entries other capacity _. ready-permuted T.key P.wait runner entries other capacity };
}
