//! `witness NET NAME`: delays of a stream that can happen, beside the sums of its least bounds.

ghost use Rattle.std.specs.Prelude.{◌≡◌, ◌+◌, ◌<◌, ◌≤◌, length, IfOk, IsErrOf, OnOk};
ghost use Rattle.ats_network.specs.Senders.{sender_at};
ghost use Rattle.ats_certificate.specs.Certificate.{Holds};
ghost use Rattle.ats_tally.specs.Delays.{rows_for};
ghost use Rattle.ats_bound.specs.Least.{least_certificate};
ghost use Rattle.ats_command_input.specs.Command as table;
ghost use Rattle.ats_command_due.specs.Calls.{Answers, ReadsFiles};
ghost use Rattle.ats_command_due.specs.Replayed.{GivesOne};
ghost use Rattle.ats_command_due.specs.Witnessed.{IsWitnessText, IsWitnessed, witness_judged};
ghost use Rattle.ats_record_commands.specs.SoFar.{IsWitnessSoFar};

use ats_bound::make;
use ats_certificate::Certificate;
use ats_command_input::{Stop, network_in, stream_in};
use ats_io::Files;
use ats_network::Network;
use ats_num::Failure;
use ats_tally::Delays;
use ats_verdict_text::refused_network;
use ats_witness_text::write_found;
use std::alloc::{AllocError, Global};

/// The text of `witness NET NAME`: for each listener of the stream and each port of the route there the greatest delay
/// of the stream for this listener in a run of a stated burst at the port, the burst of the first port with a greatest
/// delay, and this delay beside the sum of the stream's least bounds along the route. It stops where the network's file
/// has a fault or can't be read, then where no stream has the name, and then where no certificate of the network holds.
pub fn witness<F: Files>(
    alloc: Global,
    net: &str,
    name: &str,
    files: &mut F,
) -> Result<Vec<u8>, Stop>
    ensures due { Answers (F.told files.old) (table.Witness net.now name.now) result }
    ensures reads { ReadsFiles F.told F.faults F.reads (table.Witness net.now name.now) files.old files.new result }
{
    let network = network_in(alloc, net, files)?;
    let stream = stream_in(alloc, name, &network)?;
    delays_of(alloc, &network, stream)
}

// What is printed of the delays found of a stream, or why no certificate of its network holds.
fn delays_of(alloc: Global, network: &Network, stream: u32) -> Result<Vec<u8>, Stop>
    requires stream { stream < length network.now.streams }
    ensures due { GivesOne IsWitnessed result (witness_judged network.now stream) }
    ensures was_read { ¬ IsErrOf result Stop.ReadFailed }
{
    let topology = network.topology();
    match make(alloc, network) {
        Ok(certificate) => Ok(text_of(alloc, network, &certificate, stream)?),
        Err(Failure::Fault(reason)) => Err(Stop::Refused(refused_network(
            alloc, topology, &reason,
        )?)),
        Err(Failure::NoMemory) => Err(Stop::NoMemory),
    }
}

// What is printed of the delays found of a stream for each of its listeners, beside the sum of its bounds by the least
// certificate along the route there.
fn text_of(
    alloc: Global,
    network: &Network,
    certificate: &Certificate,
    stream: u32,
) -> Result<Vec<u8>, AllocError>
    requires stream { stream < length network.now.streams }
    requires least { certificate.now ≡ least_certificate network.now }
    requires holds { Holds network.now (least_certificate network.now) }
    ensures { IfOk result (λ text. IsWitnessText network.now stream text.items) }
{
    let delays = Delays::new(alloc, network, certificate)?;
    let mut text = Vec::new(alloc);
    for listener in 0..network.sender_legs(stream) {
        write_listener(alloc, &mut text, network, &delays, stream, listener)?;
    }
    Ok(text)
}

// Appends what is printed of the delays found for one listener.
fn write_listener(
    alloc: Global,
    text: &mut Vec<u8>,
    network: &Network,
    delays: &Delays,
    stream: u32,
    listener: u32,
) -> Result<(), AllocError>
    requires stream { stream < length network.now.streams }
    requires listener { listener ≤ length (sender_at network.now stream).branches }
    requires holds { Holds network.now (least_certificate network.now) }
    requires delays { delays.now ≡ rows_for network.now (least_certificate network.now) }
    requires so_far { IsWitnessSoFar network.now stream listener text.old.items }
    ensures { OnOk result (IsWitnessSoFar network.now stream (listener + 1) text.new.items) }
{
    let found = ats_witness::witness(alloc, network, stream, listener)?;
    let bound = delays.along(stream, listener);
    write_found(text, network, stream, listener, &found, bound)
}
