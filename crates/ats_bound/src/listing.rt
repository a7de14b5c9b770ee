//! The rows of a network with the least waits.

ghost use Rattle.std.specs.Prelude.{◌≡◌, ◌≤◌, ◌<◌, ◌+◌, ◌++◌, length, None, IfOk, IfErr, OnOk};
ghost use Rattle.ats_num.specs.Failure.{IsDue};
ghost use Rattle.ats_network.specs.Network.{IsNetwork};
ghost use Rattle.ats_certificate.specs.Used.{places_of};
ghost use Rattle.ats_tally.specs.Reason.{first_some};
ghost use Rattle.ats_bound.specs.Begun.{IsBegun, IsNext, overload_at, places_past, rows_at};
ghost use Rattle.ats_bound.specs.Least.{least_certificate};
ghost use Rattle.ats_bound.specs.Reason.{overload};

use crate::rows::row_of;
use ats_certificate::Certificate;
use ats_num::Failure;
use ats_tally::{Reason, Tallies};
use std::alloc::Global;

/// The classes of streams.
const CLASSES: [u8; 7] = [1, 2, 3, 4, 5, 6, 7];

/// The rows of all ports and classes that some stream uses, with the least waits, or the first that is overloaded, from
/// what the senders of a network make of each.
pub fn least_rows(alloc: Global, tallies: &Tallies) -> Result<Certificate, Failure<Reason>>
    ensures rules { OnOk result (IsNetwork tallies.now) }
    ensures ok { IfOk result (λ certificate. certificate ≡ least_certificate tallies.now) }
    ensures fits { OnOk result (first_some (overload tallies.now) (places_of tallies.now) ≡ None) }
    ensures err { IfErr result (λ answer. IsDue answer (first_some (overload tallies.now) (places_of tallies.now))) }
{
    let mut certificate = Certificate::new(alloc);
    for port in 0..tallies.network().topology().ports().len() as u32 {
        push_port(&mut certificate, tallies, port)?;
    }
    Ok(certificate)
}

// Adds the rows of a port.
fn push_port(
    certificate: &mut Certificate,
    tallies: &Tallies,
    port: u32,
) -> Result<(), Failure<Reason>>
    requires network { IsNetwork tallies.now }
    requires port { port < length tallies.now.topology.ports }
    requires begun { IsBegun tallies.now certificate.old (places_past tallies.now port) }
    ensures ok { OnOk result (IsBegun tallies.now certificate.new (places_past tallies.now (port + 1))) }
    ensures err { IfErr result (λ answer. IsDue answer (first_some (overload tallies.now) (places_of tallies.now))) }
{
    for class in &CLASSES {
        if let Err(answer) = push_row(certificate, tallies, port, *class) {
            return Err(answer);
        }
    }
    Ok(())
}

// Adds the row of a port and a class, where some stream of the class uses the port.
fn push_row(
    certificate: &mut Certificate,
    tallies: &Tallies,
    port: u32,
    class: u8,
) -> Result<(), Failure<Reason>>
    requires port { port < length tallies.now.topology.ports }
    requires class_least { 1 ≤ class }
    requires class_most { class ≤ 7 }
    requires after { IsNext tallies.now certificate.old (port, class) }
    ensures ok { OnOk result (certificate.new ≡ certificate.old ++ rows_at tallies.now (port, class)) }
    ensures fits { OnOk result (overload_at tallies.now (port, class) ≡ None) }
    ensures err { IfErr result (λ answer. IsDue answer (overload_at tallies.now (port, class))) }
{
    if !tallies.uses(port, class) {
        return Ok(());
    }
    match row_of(tallies.network(), port, class, tallies.tally(port, class)) {
        Ok(row) => {
            certificate.push(row)?;
            Ok(())
        }
        Err(load) => Err(Failure::Fault(Reason::Overloaded { port, class, load })),
    }
}
