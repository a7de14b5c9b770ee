//! `buffers NET CERT SCHEDULE ORDER`: how much each port must be able to hold of each class, and the most that it held
//! in a run of the schedule.

ghost use Rattle.std.specs.Prelude.{IfOk, IsErrOf};
ghost use Rattle.ats_io.specs.Outside.{IfTold};
ghost use Rattle.ats_certificate.specs.Certificate.{Holds};
ghost use Rattle.ats_checker.specs.Ports.{RowsInside};
ghost use Rattle.ats_trace.specs.Releases.{AreReleases, HaveFewPorts};
ghost use Rattle.ats_command_input.specs.Command as table;
ghost use Rattle.ats_command_input.specs.Outcome.{ReadsFile};
ghost use Rattle.ats_command_due.specs.Calls.{Answers, ReadsFiles};
ghost use Rattle.ats_command_due.specs.Held.{IsHeldText, held, held_judged};
ghost use Rattle.ats_command_due.specs.Judged.{unless_refused};
ghost use Rattle.ats_command_due.specs.Replayed.{GivesOne};

use crate::judging::holding;
use ats_buffer_text::listed;
use ats_certificate::Certificate;
use ats_command_input::{Order, Stop, certificate_in, network_in, schedule_in};
use ats_io::Files;
use ats_network::Network;
use ats_ordered_run::run_in;
use ats_trace::Release;
use std::alloc::{AllocError, Global};

/// The text of `buffers NET CERT SCHEDULE ORDER`: the buffer of each row of the certificate, and the most that its port
/// held of its class in a run of the network with exactly the releases of the schedule, by the tie and the pace of the
/// order. It stops where the network's file, then where the certificate's, and then where the schedule's has a fault or
/// can't be read, and where the certificate does not hold.
pub fn peaks<F: Files>(
    alloc: Global,
    net: &str,
    certificate: &str,
    schedule: &str,
    order: Order,
    files: &mut F,
) -> Result<Vec<u8>, Stop>
    ensures due { Answers (F.told files.old) (table.Peaks net.now certificate.now schedule.now order) result }
    ensures reads { ReadsFiles F.told F.faults F.reads (table.Peaks net.now certificate.now schedule.now order)
        files.old files.new result }
{
    let network = network_in(alloc, net, files)?;
    let rows = certificate_in(alloc, certificate, network.topology(), files)?;
    peaks_in(alloc, &network, &rows, schedule, order, files)
}

// What is printed of a certificate, and of a run of the schedule that a file declares.
fn peaks_in<F: Files>(
    alloc: Global,
    network: &Network,
    certificate: &Certificate,
    schedule: &str,
    order: Order,
    files: &mut F,
) -> Result<Vec<u8>, Stop>
    requires inside { RowsInside network.now.topology certificate.now }
    ensures due { IfTold (F.told files.old schedule.now) (λ bytes.
        GivesOne (IsHeldText order) result (held_judged network.now certificate.now schedule.now bytes)) }
    ensures reads { ReadsFile F.told F.faults F.reads schedule.now files.old files.new result }
{
    let releases = schedule_in(alloc, schedule, network, files)?;
    judgement_of(alloc, network, certificate, &releases, order)
}

// What is printed of a certificate that holds, and of a run with these releases; or why it does not.
fn judgement_of(
    alloc: Global,
    network: &Network,
    certificate: &Certificate,
    releases: &[Release],
    order: Order,
) -> Result<Vec<u8>, Stop>
    requires inside { RowsInside network.now.topology certificate.now }
    requires releases { AreReleases network.now releases.now }
    requires few_ports { HaveFewPorts network.now releases.now }
    ensures due { GivesOne (IsHeldText order) result
        (unless_refused network.now certificate.now (held network.now certificate.now releases.now)) }
    ensures was_read { ¬ IsErrOf result Stop.ReadFailed }
{
    holding(alloc, network, certificate)?;
    Ok(text_of(alloc, network, certificate, releases, order)?)
}

// What is printed of the buffers of a certificate that holds, and of their peaks in a run with these releases.
fn text_of(
    alloc: Global,
    network: &Network,
    certificate: &Certificate,
    releases: &[Release],
    order: Order,
) -> Result<Vec<u8>, AllocError>
    requires inside { RowsInside network.now.topology certificate.now }
    requires holds { Holds network.now certificate.now }
    requires releases { AreReleases network.now releases.now }
    requires few_ports { HaveFewPorts network.now releases.now }
    ensures { IfOk result (λ text.
        IsHeldText order (held network.now certificate.now releases.now) text.items) }
{
    let buffers = ats_buffer::buffers(alloc, network, certificate)?;
    let run = run_in(alloc, network, releases, order)?;
    let peaks = ats_buffer::peaks(alloc, network, &run, certificate.rows())?;
    listed(
        alloc,
        network.topology(),
        certificate.rows(),
        &buffers,
        Some(&peaks),
    )
}
