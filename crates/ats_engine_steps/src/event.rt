//! What may happen next.

ghost use Rattle.std.specs.Prelude.{◌≡◌};
ghost use Rattle.ats_engine_steps.specs.Entries.{moment_at, event_of};

use ats_events::Moment;
use ats_events::phase::{ARRIVAL, ELIGIBLE, SELECTION};
use ats_num::Ps;

/// What happens at a moment of a run. Legs of frames are named by their rows, and ports by their numbers.
#[derive(Clone, Copy, Debug, PartialEq, Eq)]
pub enum Event {
    /// A frame comes to the next port of this leg, or is released.
    Arrival(u32),
    /// A frame becomes eligible along this leg.
    Eligibility(u32),
    /// This port selects a frame.
    Selection(u32),
}

impl Event {
    /// The event that happens at a moment, by its phase and its number.
    pub fn of(moment: Moment) -> Event
        ensures { result ≡ event_of moment }
    {
        if moment.phase == ARRIVAL {
            return Event::Arrival(moment.id);
        }
        if moment.phase == ELIGIBLE {
            return Event::Eligibility(moment.id);
        }
        Event::Selection(moment.id)
    }

    /// The entry of an agenda for this event at a time: its moment, and the event.
    pub fn at(self, time: Ps) -> (Moment, Event)
        ensures { result ≡ (moment_at self time, self) }
    {
        let (phase, id) = match self {
            Event::Arrival(row) => (ARRIVAL, row),
            Event::Eligibility(row) => (ELIGIBLE, row),
            Event::Selection(port) => (SELECTION, port),
        };
        let moment = Moment {
            at: time,
            phase,
            id,
        };
        (moment, self)
    }
}
