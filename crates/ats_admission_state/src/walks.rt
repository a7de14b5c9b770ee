//! Walks along a path from port to port.

ghost use Rattle.std.specs.Prelude.{◌≡◌, ◌+◌, ◌<◌, ◌≤◌, length, All, None, IfNone, OnOk};
ghost use Rattle.ats_network.specs.Network.{IsNetwork, senders_of};
ghost use Rattle.ats_certificate.specs.PortSums.{senders_at};
ghost use Rattle.ats_bound.specs.Reason.{overload, reason_of};
ghost use Rattle.ats_admission_law.specs.Lowest.{found_at, lower_of};
ghost use Rattle.ats_admission_law.specs.Near.{overstay_at};
ghost use Rattle.ats_tally.specs.Shares.{AreSharesOf};
ghost use Rattle.ats_tally.specs.Tallies.{AreClassTallies};
ghost use Rattle.ats_admission_shares.specs.PortShares.{stream_at, without_at};
ghost use Rattle.ats_admission_state.specs.Judged.{judged};
ghost use Rattle.ats_admission_state.specs.Judging.{KeepsOthers, SetsBelow, found_on};
ghost use Rattle.ats_admission_state.specs.Kept.{AreLeast, AreLeastBeside, KeepsStreams};
ghost use Rattle.ats_admission_state.specs.Routes.{route_of};
ghost use Rattle.ats_admission_state.specs.Spares.{AreSpares, AreUsers, KeepSpares};

use crate::ports::{judge_port, renew_port};
use crate::routes::Route;
use crate::spares::{bounds_at, keep_spares};
use crate::sums::judge_sums;
use ats_admission_shares::PortShares;
use ats_admission_users::PortUsers;
use ats_class_table::{CLASSES, PortClassTable};
use ats_network::Network;
use ats_tally::{Reason, Tally};

/// What was found against a network along the first ports of a path: with its port, the overload at the lowest port
/// that has one, and, where none has, the need of residence at the lowest port that has one.
#[derive(Clone, Copy)]
struct Found {
    load: Option<(u32, Reason)>,
    stay: Option<(u32, Reason)>,
}

/// Makes the bounds along a path anew, where no certificate is refused for the network, and keeps the spares of the
/// routes that have these users. The network keeps its rules.
pub(crate) fn renew_path(
    bounds: &mut PortClassTable<u128>,
    spares: &mut [u64],
    network: &Network,
    users: &PortUsers,
    shares: &PortShares,
    path: &[u32],
)
    requires free { reason_of network.now ≡ None }
    requires ports { All (λ p. p < length network.now.topology.ports) path.now }
    requires shares { AreSharesOf network.now shares.now }
    requires beside { AreLeastBeside network.now path.now bounds.old }
    requires lists { length users.now.lists ≡ length network.now.topology.ports }
    requires users { AreUsers (length spares.old) users.now }
    ensures rules { IsNetwork network.now }
    ensures least { AreLeast network.now bounds.new }
    ensures spares { KeepSpares users.now bounds.old bounds.new spares.old spares.new }
{
    let _rules = network.streams(); // for what a network keeps
    for port in path {
        let before = bounds_at(bounds, *port);
        renew_port(bounds, network, *port, &shares.tallies(network, *port));
        keep_spares(spares, bounds, users, *port, &before);
    }
}

/// Judges a network by its last stream, without which a certificate holds. The users, the shares, the routes and their
/// spares are those of the network without it, and its own route is given. The sum of the stream's least bounds, or the
/// reason against the network exactly where there is one.
pub(crate) fn judge_stream(
    bounds: &mut PortClassTable<u128>,
    spares: &mut [u64],
    network: &Network,
    streams: &PortUsers,
    shares: &PortShares,
    routes: &[Route],
    stream: u32,
    own: &Route,
) -> Result<u128, Reason>
    requires last { stream + 1 ≡ length network.now.streams }
    requires own { own.now ≡ route_of (stream_at network.now stream) }
    requires free { reason_of (without_at network.now stream) ≡ None }
    requires keeps { KeepsStreams (without_at network.now stream) streams.now shares.now routes.now }
    requires beside { AreLeastBeside network.now (stream_at network.now stream).ports bounds.old }
    requires spares { AreSpares bounds.old routes.now spares.old }
    ensures answer { result ≡ judged network.now stream }
    ensures ok { OnOk result (AreLeast network.now bounds.new) }
    ensures beside { AreLeastBeside network.now (stream_at network.now stream).ports bounds.new }
    ensures spares { AreSpares bounds.new routes.now spares.new }
{
    let path = network.streams()[stream as usize].ports();
    if let Some(reason) = judge_path(bounds, spares, network, streams, shares, stream, path) {
        return Err(reason);
    }
    judge_sums(bounds, spares, network, streams, routes, stream, own)
}

// Makes the bounds along the ports of the stream with this number anew, unless a class is overloaded there, and keeps
// the spares of the routes that have these users. What is found first at the lowest port: an overload, or else a need
// of residence over the residence time behind the port.
fn judge_path(
    bounds: &mut PortClassTable<u128>,
    spares: &mut [u64],
    network: &Network,
    users: &PortUsers,
    shares: &PortShares,
    stream: u32,
    path: &[u32],
) -> Option<Reason>
    requires number { stream < length network.now.streams }
    requires path { path.now ≡ (stream_at network.now stream).ports }
    requires few { length path.now ≤ 65536 }
    requires ports { All (λ p. p < length network.now.topology.ports) path.now }
    requires shares { AreSharesOf (without_at network.now stream) shares.now }
    requires beside { AreLeastBeside network.now path.now bounds.old }
    requires lists { length users.now.lists ≡ length network.now.topology.ports }
    requires users { AreUsers (length spares.old) users.now }
    ensures found { result ≡ found_on network.now path.now }
    ensures none { IfNone result (AreLeast network.now bounds.new) }
    ensures beside { AreLeastBeside network.now path.now bounds.new }
    ensures spares { KeepSpares users.now bounds.old bounds.new spares.old spares.new }
{
    let mut found = Found {
        load: None,
        stay: None,
    };
    for (hop, port) in path.iter().enumerate() {
        let tallies = shares.tallies_with(network, stream, hop as u32);
        let before = bounds_at(bounds, *port);
        found = judge_next(bounds, network, *port, &tallies, found);
        keep_spares(spares, bounds, users, *port, &before);
    }
    match found.load {
        Some(lowest) => Some(lowest.1),
        None => found.stay.map(|lowest| lowest.1),
    }
}

// What is found with one port more, whose bounds are made anew, unless a class is overloaded so far.
fn judge_next(
    bounds: &mut PortClassTable<u128>,
    network: &Network,
    port: u32,
    tallies: &[Tally; CLASSES],
    found: Found,
) -> Found
    requires port { port < length network.now.topology.ports }
    requires count { bounds.old.ports ≡ length network.now.topology.ports }
    requires tallies { AreClassTallies (senders_at network.now.topology port (senders_of network.now)) tallies.now }
    ensures load { result.load ≡ lower_of found.load port (found_at (overload network.now) network.now port) }
    ensures stay { result.load ≡ None
        → result.stay ≡ lower_of found.stay port (found_at (overstay_at network.now) network.now port) }
    ensures set { result.load ≡ None → SetsBelow network.now port 8 bounds.old bounds.new }
    ensures kept { KeepsOthers port bounds.old bounds.new }
{
    match judge_port(bounds, network, port, tallies) {
        Ok(stay) => Found {
            load: found.load,
            stay: lower_of(found.stay, port, stay),
        },
        Err(load) => Found {
            load: lower_of(found.load, port, Some(load)),
            stay: found.stay,
        },
    }
}

// Of what was found so far, with its number, and what is found at one number more, that of the lower number.
fn lower_of(
    best: Option<(u32, Reason)>,
    number: u32,
    found: Option<Reason>,
) -> Option<(u32, Reason)>
    ensures { result ≡ lower_of best number found }
{
    let Some(reason) = found else { return best };
    match best {
        None => Some((number, reason)),
        Some(lowest) => {
            if number < lowest.0 {
                Some((number, reason))
            } else {
                Some(lowest)
            }
        }
    }
}
