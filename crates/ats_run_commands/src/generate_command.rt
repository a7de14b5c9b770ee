//! `generate NET SEED COUNT`: makes releases by which all talkers keep their buckets, runs them, and gives a summary.

ghost use Rattle.std.specs.Prelude.{◌≡◌, ◌≤◌, All, IfOk, IsErrOf};
ghost use Rattle.ats_trace.specs.Journey.{IsJourney};
ghost use Rattle.ats_trace.specs.Releases.{AreReleases, HaveFewPorts};
ghost use Rattle.ats_trace.specs.declared.run.TheConstants.{MAX_FRAMES};
ghost use Rattle.ats_replay.specs.Report.{report_text};
ghost use Rattle.ats_verdict_text.specs.Text.{refused_text};
ghost use Rattle.ats_command_input.specs.Command as table;
ghost use Rattle.ats_command_input.specs.declared.order.Order.TheVariants as order;
ghost use Rattle.ats_command_due.specs.Calls.{Answers, ReadsFiles};
ghost use Rattle.ats_command_due.specs.Generated.{IsGenerated, IsReportText, gen_fault_text, least_sums, made_for};
ghost use Rattle.ats_command_due.specs.Replayed.{GivesOne, IsRunIn};

use ats_bound::make;
use ats_command_input::{FrameCount, Stop, network_in};
use ats_engine::Engine;
use ats_events::Up;
use ats_gen::{GenFault, schedule};
use ats_io::Files;
use ats_network::Network;
use ats_num::{Early, Failure, Least};
use ats_replay::report;
use ats_run_records::Ends;
use ats_tally::Delays;
use ats_trace::Release;
use std::alloc::{AllocError, Global};

/// The text of `generate NET SEED COUNT`: for each listener of each stream and flow what came of its frames in a run of
/// the network with exactly the releases that are made from the seed, by the tie and the pace of the order `early`,
/// beside the sum of the stream's least bounds along the route there. It stops where the network's file has a fault or
/// can't be read, and where no stream is declared or a release, or the ports of the frames together, would be past a
/// limit.
pub fn generate<F: Files>(
    alloc: Global,
    net: &str,
    seed: u64,
    count: FrameCount,
    files: &mut F,
) -> Result<Vec<u8>, Stop>
    ensures due { Answers (F.told files.old) (table.Generate net.now seed count.frames) result }
    ensures reads { ReadsFiles F.told F.faults F.reads (table.Generate net.now seed count.frames)
        files.old files.new result }
{
    let network = network_in(alloc, net, files)?;
    summary_of(alloc, &network, seed, count.frames)
}

// What is printed of the releases that are made for a network, or why none are.
fn summary_of(alloc: Global, network: &Network, seed: u64, count: u32) -> Result<Vec<u8>, Stop>
    requires count { count ≤ MAX_FRAMES }
    ensures due { GivesOne (IsGenerated seed count) result (made_for seed count network.now) }
    ensures was_read { ¬ IsErrOf result Stop.ReadFailed }
{
    match schedule(alloc, network, seed, count) {
        Ok(releases) => Ok(text_of(alloc, network, releases)?),
        Err(Failure::Fault(fault)) => Err(Stop::Refused(refused(alloc, fault)?)),
        Err(Failure::NoMemory) => Err(Stop::NoMemory),
    }
}

// What is printed of a run with these releases.
fn text_of(alloc: Global, network: &Network, releases: Vec<Release>) -> Result<Vec<u8>, AllocError>
    requires releases { AreReleases network.now releases.items }
    requires few_ports { HaveFewPorts network.now releases.items }
    ensures { IfOk result (λ text. IsReportText network.now releases.items text.items) }
{
    let ends = ends_in(alloc, network, releases)?;
    report_of(alloc, network, &ends)
}

// How the frames of a run with exactly these releases ended, by the tie and the pace of the order `early`. No hop of
// the run is kept.
fn ends_in(alloc: Global, network: &Network, releases: Vec<Release>) -> Result<Ends, AllocError>
    requires releases { AreReleases network.now releases.items }
    requires few_ports { HaveFewPorts network.now releases.items }
    ensures { IfOk result (λ ends. IsRunIn order.Early network.now releases.items ends) }
{
    let engine = Engine::open_brief(alloc, network, releases, Early, Up, Least)?;
    Ok(engine.run_brief())
}

// What came of each sender's frames for each listener in a run, with the sums of the least bounds.
fn report_of(alloc: Global, network: &Network, ends: &Ends) -> Result<Vec<u8>, AllocError>
    requires journeys { All (IsJourney network.now) ends.now }
    ensures { IfOk result (λ text. text.items ≡ report_text network.now ends.now (least_sums network.now)) }
{
    match make(alloc, network) {
        Ok(certificate) => {
            let delays = Delays::new(alloc, network, &certificate)?;
            report(alloc, network, ends, Some(delays.sums()))
        }
        Err(Failure::Fault(_)) => report(alloc, network, ends, None),
        Err(Failure::NoMemory) => Err(AllocError),
    }
}

// The line that says why no releases are made.
fn refused(alloc: Global, fault: GenFault) -> Result<Vec<u8>, AllocError>
    ensures { IfOk result (λ text. text.items ≡ refused_text (gen_fault_text fault)) }
{
    match fault {
        GenFault::NoStream => Vec::from_slice(alloc, b"refused no-stream\n"),
        GenFault::Limit => Vec::from_slice(alloc, b"refused limit\n"),
    }
}
