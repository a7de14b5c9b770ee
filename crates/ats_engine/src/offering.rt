//! A frame that came to a port, and is eligible there now or later.

ghost use Rattle.std.specs.Prelude.{◌≡◌, ◌≢◌};
ghost use Rattle.std.specs.Option.{option_to_list};
ghost use Rattle.ats_engine_steps.specs.Conditions.{MayBeOffered};
ghost use Rattle.ats_engine_steps.specs.Seen.{course_of};
ghost use Rattle.ats_engine_steps.specs.Steps.{BecomesEligible};
ghost use Rattle.ats_engine.specs.Offering.{IsLeftUntil};

use ats_engine_steps::{Event, State, become_eligible};
use ats_events::Moment;
use ats_network::Network;
use ats_num::{Ps, Tie};
use ats_run_records::Store;

/// A frame that came now along a leg is eligible at this time. Where that is now, its port is offered it at once, and
/// this gives what that brings; where it is later, this gives when the frame becomes eligible.
pub(crate) fn offer_or_leave<T: Tie, S: Store>(
    net: &Network,
    state: &mut State<T, S>,
    now: Moment,
    row: u32,
    at: Ps,
) -> Option<(Moment, Event)>
    requires { at.0 ≡ now.at.0 → MayBeOffered net.now (course_of state.old) now.at.0 row }
    ensures offered { at.0 ≡ now.at.0 → BecomesEligible T.key net.now (course_of state.old) (course_of state.new) now
        row (option_to_list result) }
    ensures left { at.0 ≢ now.at.0 → IsLeftUntil (course_of state.old) (course_of state.new) row at
        (option_to_list result) }
{
    if at.0 == now.at.0 {
        return become_eligible(net, state, now, row);
    }
    Some(Event::Eligibility(row).at(at))
}
