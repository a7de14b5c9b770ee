//! Sums of the least bounds along streams' ports, and their deadlines.

ghost use Rattle.std.specs.Prelude.{◌≡◌, ◌+◌, ◌<◌, ◌≤◌, length, None};
ghost use Rattle.ats_num.specs.Failure.{unless};
ghost use Rattle.ats_bound.specs.Least.{least_certificate};
ghost use Rattle.ats_bound.specs.Reason.{reason_of};
ghost use Rattle.ats_admission_law.specs.Near.{late_at, late_near};
ghost use Rattle.ats_admission_shares.specs.PortShares.{stream_at, stream_paths, without_at};
ghost use Rattle.ats_admission_users.specs.Users.{ListsPaths};
ghost use Rattle.ats_tally.specs.Listeners.{listener_at};
ghost use Rattle.ats_tally.specs.Reason.{late_for};
ghost use Rattle.ats_admission_state.specs.Judged.{sum_at};
ghost use Rattle.ats_admission_state.specs.Kept.{AreLeast};
ghost use Rattle.ats_admission_state.specs.Routes.{route_of, routes_of};
ghost use Rattle.ats_admission_state.specs.Spares.{AreSpares};

use crate::late::find_late;
use crate::routes::Route;
use ats_admission_users::PortUsers;
use ats_class_table::PortClassTable;
use ats_network::Network;
use ats_tally::{Reason, listener_name};

/// The sum of the bounds of a network's last stream for its first listener; without the stream a certificate holds. As
/// the error, the stream with the lowest number that uses a port of its own and whose sum for some listener is over its
/// deadline. The users, the routes and their spares are those of the other streams.
pub(crate) fn judge_sums(
    bounds: &PortClassTable<u128>,
    spares: &mut [u64],
    network: &Network,
    users: &PortUsers,
    routes: &[Route],
    stream: u32,
    own: &Route,
) -> Result<u128, Reason>
    requires last { stream + 1 ≡ length network.now.streams }
    requires free { reason_of (without_at network.now stream) ≡ None }
    requires users { ListsPaths (length network.now.topology.ports) (stream_paths (without_at network.now stream))
        users.now }
    requires routes { routes.now ≡ routes_of (without_at network.now stream) }
    requires own { own.now ≡ route_of (stream_at network.now stream) }
    requires least { AreLeast network.now bounds.now }
    requires spares { AreSpares bounds.now routes.now spares.old }
    ensures answer { result ≡ unless (λ reason. reason) (late_near network.now (stream_at network.now stream))
        (sum_at network.now stream) }
    ensures spares { AreSpares bounds.now routes.now spares.new }
{
    let path = network.streams()[stream as usize].ports();
    match find_late(bounds, spares, routes, users, path) {
        Some(number) => judge_route(bounds, network, number, &routes[number as usize]),
        None => judge_route(bounds, network, stream, own),
    }
}

// The sum of the bounds for the first listener of a stream with these routes, or the first reason against it, where
// for some listener they are over its deadline.
fn judge_route(
    bounds: &PortClassTable<u128>,
    network: &Network,
    stream: u32,
    route: &Route,
) -> Result<u128, Reason>
    requires stream { stream < length network.now.streams }
    requires route { route.now ≡ route_of (stream_at network.now stream) }
    requires least { AreLeast network.now bounds.now }
    ensures { result ≡ unless (λ reason. reason) (late_at network.now stream) (sum_at network.now stream) }
{
    for leg in 0..network.streams()[stream as usize].legs() {
        if let Some(reason) = late_for(bounds, network, stream, route, leg) {
            return Err(reason);
        }
    }
    Ok(route.sum(bounds, 0))
}

// The sum of the bounds along the route to a stream's listener, that of one leg counted from 0, where it is over the
// stream's deadline.
fn late_for(
    bounds: &PortClassTable<u128>,
    network: &Network,
    stream: u32,
    route: &Route,
    leg: u32,
) -> Option<Reason>
    requires stream { stream < length network.now.streams }
    requires leg { leg ≤ length (stream_at network.now stream).branches }
    requires route { route.now ≡ route_of (stream_at network.now stream) }
    requires least { AreLeast network.now bounds.now }
    ensures { result ≡ late_for (least_certificate network.now) (stream_at network.now stream)
        (listener_at network.now.topology (stream_at network.now stream) leg) }
{
    let late = &network.streams()[stream as usize];
    let sum = route.sum(bounds, leg);
    if sum <= u128::from(late.deadline().0) {
        return None;
    }
    Some(Reason::Deadline {
        stream: late.name(),
        listener: listener_name(network, stream, leg),
        sum,
    })
}
