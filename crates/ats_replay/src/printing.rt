//! The text of a run, frame by frame.

ghost use Rattle.std.specs.Prelude.{◌≡◌, ◌++◌, All, OnOk, IfOk};
ghost use Rattle.std.specs.List.{enumerate_from, flat_map};
ghost use Rattle.ats_trace.specs.Journey.{IsJourney};
ghost use Rattle.ats_replay.specs.Departures.{departures_text, journey_text};

use crate::journey::write_journey;
use crate::room::room_of;
use crate::totals::{totals_of, write_totals};
use ats_network::Network;
use ats_trace::Run;
use std::alloc::{AllocError, Global};

/// What happened to each frame of a run, in the order of the frames: a line with its number, its sender's name, its
/// octets and its release; a line for each hop along the trunk, with the port there; and a line with its arrival at its
/// first listener, or that it was discarded. Behind them, for each branch of the sender in order, a line with the
/// station of the listener, one for each hop of the copy along the branch, and one with its end. Then a line of totals.
/// Condition: each frame goes along its sender's legs (`IsJourney`), as in every legal run. The text is made in one
/// buffer. `AllocError` where there is no memory for it.
#[tactic(auto, unfolding(crate::specs::Departures::departures_text))]
pub fn departures(alloc: Global, network: &Network, run: &Run) -> Result<Vec<u8>, AllocError>
    requires { All (IsJourney network.now) run.now }
    ensures { IfOk result (λ text. text.items ≡ departures_text network.now run.now) }
{
    let mut out = Vec::with_capacity(alloc, room_of(run))?;
    write_journeys(&mut out, network, run)?;
    write_totals(&mut out, &totals_of(network, run))?;
    Ok(out)
}

// The lines of all frames.
fn write_journeys(out: &mut Vec<u8>, network: &Network, run: &Run) -> Result<(), AllocError>
    requires { All (IsJourney network.now) run.now }
    ensures { OnOk result
        (out.new.items ≡ out.old.items ++ flat_map (journey_text network.now) (enumerate_from 0 run.now)) }
{
    for frame in 0..run.len() as u32 {
        write_journey(out, network, run, frame)?;
    }
    Ok(())
}
