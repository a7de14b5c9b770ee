//! Entries that are put into an agenda.

ghost use Rattle.std.specs.Prelude.{◌<◌, ◌++◌, length, Some, All};
ghost use Rattle.std.specs.Option.{option_to_list};
ghost use Rattle.ats_network.specs.Network.{senders_of};
ghost use Rattle.ats_run_records.specs.Progress.{progress_at};
ghost use Rattle.ats_engine_steps.specs.Steps.{due_entries};
ghost use Rattle.ats_engine.specs.Entering.{MayEnter, Enters, rows_begun};
ghost use Rattle.ats_engine.specs.Told.{agenda_told};

use ats_engine_steps::{Event, row_begun};
use ats_events::{Agenda, Moment, TimeOrder};
use ats_network::Network;
use ats_num::Ps;
use ats_run_records::{Records, Store};

/// Puts an entry into the agenda, where there is one: its moment, which tells the event.
pub(crate) fn enter<O: TimeOrder>(agenda: &mut Agenda<O, ()>, entry: Option<(Moment, Event)>)
    requires { MayEnter O.before (agenda_told agenda.old) (option_to_list entry) }
    ensures { Enters (agenda_told agenda.old) (agenda_told agenda.new) (option_to_list entry) }
{
    if let Some(pair) = entry {
        agenda.insert(pair.0, ());
    }
}

/// Puts into the agenda the eligibility at this time of each leg that begins at a hop of the leg of a row.
pub(crate) fn enter_begun<O: TimeOrder, S: Store>(
    agenda: &mut Agenda<O, ()>,
    net: &Network,
    records: &Records<S>,
    row: u32,
    hop: u32,
    at: Ps,
)
    requires row { row < length records.now.legs }
    requires sender { (progress_at records.now.legs row).release.sender < length (senders_of net.now) }
    requires frame { (progress_at records.now.legs row).frame < length records.now.firsts }
    requires there { All (λ n. n < length records.now.legs)
        (rows_begun net.now records.now.firsts (progress_at records.now.legs row) hop) }
    requires entries { MayEnter O.before (agenda_told agenda.old)
        (due_entries (Some at) (rows_begun net.now records.now.firsts (progress_at records.now.legs row) hop)) }
    ensures { Enters (agenda_told agenda.old) (agenda_told agenda.new)
        (due_entries (Some at) (rows_begun net.now records.now.firsts (progress_at records.now.legs row) hop)) }
{
    let sender = records.release(row).sender;
    for copy in 1..net.sender_legs(sender) {
        if let Some(other) = row_begun(net, records, row, hop, copy) {
            enter(agenda, Some(Event::Eligibility(other).at(at)));
        }
    }
}

/// Puts two entries into the agenda, each where it is there.
pub(crate) fn enter_both<O: TimeOrder>(
    agenda: &mut Agenda<O, ()>,
    one: Option<(Moment, Event)>,
    other: Option<(Moment, Event)>,
)
    requires { MayEnter O.before (agenda_told agenda.old) (option_to_list one ++ option_to_list other) }
    ensures { Enters (agenda_told agenda.old) (agenda_told agenda.new) (option_to_list one ++ option_to_list other) }
{
    enter(agenda, other);
    enter(agenda, one);
}
