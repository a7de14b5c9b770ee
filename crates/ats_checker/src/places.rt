//! The ports and classes that a certificate must have.

ghost use Rattle.std.specs.Prelude.{◌≡◌, ◌<◌, ◌≤◌, length};
ghost use Rattle.ats_certificate.specs.Used.{places_at, places_of};
ghost use Rattle.ats_tally.specs.Reason.{first_some};
ghost use Rattle.ats_checker.specs.Refusal.{missing, missing_at};

use crate::refusal::Refusal;
use ats_tally::{Bounds, Tallies};

/// The first port and class that some stream uses and that have no row.
pub(crate) fn first_missing(tallies: &Tallies, bounds: &Bounds) -> Option<Refusal>
    requires { bounds.now.ports ≡ length tallies.now.topology.ports }
    ensures { result ≡ first_some (missing bounds.now.rows) (places_of tallies.now) }
{
    for port in 0..tallies.network().topology().ports().len() as u32 {
        if let Some(refusal) = missing_of(tallies, bounds, port) {
            return Some(refusal);
        }
    }
    None
}

// The same at one port.
fn missing_of(tallies: &Tallies, bounds: &Bounds, port: u32) -> Option<Refusal>
    requires { port < bounds.now.ports }
    ensures { result ≡ first_some (missing bounds.now.rows) (places_at tallies.now port) }
{
    for class in 1..8 {
        if let Some(refusal) = missing_at(tallies, bounds, port, class) {
            return Some(refusal);
        }
    }
    None
}

// The same of one class.
fn missing_at(tallies: &Tallies, bounds: &Bounds, port: u32, class: u8) -> Option<Refusal>
    requires port { port < bounds.now.ports }
    requires class_least { 1 ≤ class }
    requires class_most { class ≤ 7 }
    ensures { result ≡ missing_at tallies.now bounds.now.rows port class }
{
    if !tallies.uses(port, class) {
        return None;
    }
    if bounds.given(port, class).is_none() {
        return Some(Refusal::RowMissing { port, class });
    }
    None
}
