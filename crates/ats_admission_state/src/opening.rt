//! What is kept of a network, made from it and its least certificate.

ghost use Rattle.std.specs.Prelude.{◌≡◌, length, IfOk};
ghost use Rattle.ats_bound.specs.Least.{least_certificate};
ghost use Rattle.ats_admission_users.specs.Users.{ListsPaths};
ghost use Rattle.ats_admission_shares.specs.PortShares.{stream_paths};
ghost use Rattle.ats_admission_state.specs.Kept.{AreLeast};
ghost use Rattle.ats_admission_state.specs.Routes.{routes_of};

use crate::routes::Route;
use ats_admission_users::PortUsers;
use ats_certificate::Certificate;
use ats_class_table::PortClassTable;
use ats_network::Network;
use std::alloc::{AllocError, Global};

/// The streams that use each port.
pub(crate) fn stream_users(alloc: Global, network: &Network) -> Result<PortUsers, AllocError>
    ensures { IfOk result (ListsPaths (length network.now.topology.ports) (stream_paths network.now)) }
{
    let mut users = PortUsers::new(alloc, network.topology().ports().len())?;
    for stream in network.streams() {
        users.push(stream.ports())?;
    }
    Ok(users)
}

/// The routes of the streams.
pub(crate) fn stream_routes(alloc: Global, network: &Network) -> Result<Vec<Route>, AllocError>
    ensures { IfOk result (λ routes. routes.items ≡ routes_of network.now) }
{
    let streams = network.streams();
    let mut routes = Vec::with_capacity(alloc, streams.len())?;
    for stream in streams {
        let route = Route::of(alloc, stream)?;
        routes.push(route)?;
    }
    Ok(routes)
}

/// The bounds of the least certificate of a network, by port and class; 0 where no stream uses the class there.
pub(crate) fn certified_bounds(
    alloc: Global,
    network: &Network,
    certificate: &Certificate,
) -> Result<PortClassTable<u128>, AllocError>
    requires { certificate.now ≡ least_certificate network.now }
    ensures { IfOk result (λ bounds. AreLeast network.now bounds) }
{
    let rows = certificate.rows();
    let mut bounds = PortClassTable::new(alloc, network.topology().ports().len(), 0)?;
    for i in (0..rows.len()).rev() {
        bounds.set(rows[i].port, rows[i].class, rows[i].bound);
    }
    Ok(bounds)
}
