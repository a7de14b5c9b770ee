//! `fit NET SCHEDULE`: what the releases of a schedule need of what their senders declare.

ghost use Rattle.std.specs.Prelude.{IfOk};
ghost use Rattle.ats_io.specs.Outside.{IfTold};
ghost use Rattle.ats_trace.specs.Releases.{AreReleases};
ghost use Rattle.ats_fit_text.specs.Text.{IsFitText};
ghost use Rattle.ats_command_input.specs.Command as table;
ghost use Rattle.ats_command_input.specs.Input.{releases_in};
ghost use Rattle.ats_command_input.specs.Outcome.{ReadsFile};
ghost use Rattle.ats_command_due.specs.Calls.{Answers, ReadsFiles};
ghost use Rattle.ats_command_due.specs.Replayed.{GivesOne};

use ats_command_input::{Stop, network_in, schedule_in};
use ats_fit_text::fitted;
use ats_io::Files;
use ats_network::Network;
use ats_trace::Release;
use std::alloc::{AllocError, Global};

/// The text of `fit NET SCHEDULE`: for each stream and each flow how many frames the schedule has of it, with their
/// least and greatest octets, for each stream the least burst, in bits, with which they conform to its declared rate,
/// beside the declared burst, and last the totals. It stops where the network's file and then where the schedule's has
/// a fault or can't be read.
pub fn fit<F: Files>(
    alloc: Global,
    net: &str,
    schedule: &str,
    files: &mut F,
) -> Result<Vec<u8>, Stop>
    ensures due { Answers (F.told files.old) (table.Fit net.now schedule.now) result }
    ensures reads { ReadsFiles F.told F.faults F.reads (table.Fit net.now schedule.now) files.old files.new result }
{
    let network = network_in(alloc, net, files)?;
    fit_of(alloc, &network, schedule, files)
}

// What is printed of the schedule that a file declares.
fn fit_of<F: Files>(
    alloc: Global,
    network: &Network,
    schedule: &str,
    files: &mut F,
) -> Result<Vec<u8>, Stop>
    ensures due { IfTold (F.told files.old schedule.now) (λ bytes.
        GivesOne (IsFitText network.now) result (releases_in network.now schedule.now bytes)) }
    ensures reads { ReadsFile F.told F.faults F.reads schedule.now files.old files.new result }
{
    let releases = schedule_in(alloc, schedule, network, files)?;
    Ok(text_of(alloc, network, &releases)?)
}

// What is printed of what is measured of these releases.
fn text_of(alloc: Global, network: &Network, releases: &[Release]) -> Result<Vec<u8>, AllocError>
    requires { AreReleases network.now releases.now }
    ensures { IfOk result (λ text. IsFitText network.now releases.now text.items) }
{
    let measured = ats_fit::fit(alloc, network, releases)?;
    fitted(alloc, network, releases, &measured)
}
