//! What is proved of the definitions, for all lists of calls.

ghost use Rattle.std.specs.Prelude.{◌≡◌};
ghost use Rattle.ats_events.specs.declared.phase.TheConstants.{TRANSMISSION_END, ARRIVAL, ELIGIBLE, SELECTION};
ghost use Rattle.ats_events.specs.Laws.{PopsAscend, EntriesAreTheRest};

use crate::order::TimeOrder;

/// Whatever is done with an agenda by `insert` and `pop` after it was opened, in each lawful order,
/// each popped moment is before all that are popped later.
pub fn pops_ascend<O: TimeOrder, E: Copy>()
    ensures { PopsAscend O E O.before }
{}

/// Whatever is done with an agenda by `insert` and `pop` after it was opened, the entries that were
/// inserted are those that were popped and those that it still has.
pub fn entries_are_the_rest<O: TimeOrder, E: Copy>()
    ensures { EntriesAreTheRest O E O.before }
{}

/// Of what happens at one time, transmissions end first, then frames arrive, then they become
/// eligible, then ports select.
pub fn phases_are()
    ensures transmission_end { TRANSMISSION_END ≡ 0 }
    ensures arrival { ARRIVAL ≡ 1 }
    ensures eligible { ELIGIBLE ≡ 2 }
    ensures selection { SELECTION ≡ 3 }
{}
