//! `conform NET SCHEDULE`: judges the releases of a schedule by the declared buckets and sizes.

ghost use Rattle.std.specs.Prelude.{◌≡◌, IfOk, IfSome, IsErrOf};
ghost use Rattle.ats_io.specs.Outside.{IfTold};
ghost use Rattle.ats_trace.specs.Releases.{AreReleases};
ghost use Rattle.ats_verdict_text.specs.Text.{refused_text};
ghost use Rattle.ats_command_input.specs.Command as table;
ghost use Rattle.ats_command_input.specs.Input.{releases_in};
ghost use Rattle.ats_command_input.specs.Outcome.{ReadsFile, answer_of};
ghost use Rattle.ats_command_due.specs.Calls.{Answers, ReadsFiles};
ghost use Rattle.ats_command_due.specs.Conformed.{ComesTo, JudgesReleases, broken_text, conforms_text};

use ats_command_input::{Stop, network_in, schedule_in};
use ats_conform::Broken;
use ats_io::Files;
use ats_network::Network;
use ats_num::Failure;
use ats_trace::Release;
use std::alloc::{AllocError, Global};

/// The text of `conform NET SCHEDULE`: the number of releases, by which every node keeps its buckets. It stops where
/// the network's file and then where the schedule's has a fault or can't be read, and where some node does not keep
/// its buckets.
pub fn conform<F: Files>(
    alloc: Global,
    net: &str,
    schedule: &str,
    files: &mut F,
) -> Result<Vec<u8>, Stop>
    ensures due { Answers (F.told files.old) (table.Conform net.now schedule.now) result }
    ensures reads { ReadsFiles F.told F.faults F.reads (table.Conform net.now schedule.now) files.old files.new result }
{
    let network = network_in(alloc, net, files)?;
    conformance_of(alloc, &network, schedule, files)
}

// What is printed of the releases that a file declares.
fn conformance_of<F: Files>(
    alloc: Global,
    network: &Network,
    schedule: &str,
    files: &mut F,
) -> Result<Vec<u8>, Stop>
    ensures due { IfTold (F.told files.old schedule.now) (λ bytes.
        ComesTo (JudgesReleases network.now) result (releases_in network.now schedule.now bytes)) }
    ensures reads { ReadsFile F.told F.faults F.reads schedule.now files.old files.new result }
{
    let releases = schedule_in(alloc, schedule, network, files)?;
    judgement_of(alloc, network, &releases)
}

// What is printed of releases by which every node keeps its buckets, or of the first frame that breaks one.
fn judgement_of(alloc: Global, network: &Network, releases: &[Release]) -> Result<Vec<u8>, Stop>
    requires { AreReleases network.now releases.now }
    ensures due { IfSome (answer_of result) (JudgesReleases network.now releases.now) }
    ensures was_read { ¬ IsErrOf result Stop.ReadFailed }
{
    match ats_conform::conform(alloc, network, releases) {
        Ok(()) => Ok(conforms(alloc, releases.len())?),
        Err(Failure::Fault(broken)) => Err(Stop::Refused(refused(alloc, broken)?)),
        Err(Failure::NoMemory) => Err(Stop::NoMemory),
    }
}

// The line of so many releases by which every node keeps its buckets.
fn conforms(alloc: Global, releases: usize) -> Result<Vec<u8>, AllocError>
    ensures { IfOk result (λ text. text.items ≡ conforms_text releases) }
{
    Ok(format!(in alloc; "conforms {releases}\n")?.into_bytes())
}

// The line of the first frame that breaks what its sender declares.
fn refused(alloc: Global, broken: Broken) -> Result<Vec<u8>, AllocError>
    ensures { IfOk result (λ text. text.items ≡ refused_text (broken_text broken)) }
{
    let text = match broken {
        Broken::Size { frame } => format!(in alloc; "refused size {frame}\n")?,
        Broken::Bucket { since, frame } => {
            format!(in alloc; "refused bucket {since} {frame}\n")?
        }
    };
    Ok(text.into_bytes())
}
