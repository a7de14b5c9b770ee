//! Streams that are kept from now on, or no longer.

ghost use Rattle.std.specs.Prelude.{◌≡◌, ℕ, ◌+◌, length, OnOk, OnErr};
ghost use Rattle.ats_class_table.specs.Table.{Table};
ghost use Rattle.ats_admission_shares.specs.PortShares.{stream_at, without_at};
ghost use Rattle.ats_admission_state.specs.Kept.{KeepsBefore, KeepsStreams};
ghost use Rattle.ats_admission_state.specs.Routes.{route_of};
ghost use Rattle.ats_admission_state.specs.Spares.{AreSpares};

use crate::routes::Route;
use ats_admission_shares::PortShares;
use ats_admission_users::PortUsers;
use ats_network::Network;
use ats_streams::Stream;
use std::alloc::AllocError;

/// Keeps the last stream of a network, with this route, of whose spare nothing is known. `AllocError` where memory runs
/// out, and then it is not kept.
pub(crate) fn enter(
    streams: &mut PortUsers,
    shares: &mut PortShares,
    routes: &mut Vec<Route>,
    spares: &mut Vec<u64>,
    network: &Network,
    stream: u32,
    route: Route,
) -> Result<(), AllocError>
    requires last { stream + 1 ≡ length network.now.streams }
    requires route { route ≡ route_of (stream_at network.now stream) }
    requires keeps { KeepsStreams (without_at network.now stream) streams.old shares.old routes.old.items }
    ensures ok { OnOk result (KeepsStreams network.now streams.new shares.new routes.new.items) }
    ensures err { OnErr result (KeepsStreams (without_at network.now stream) streams.new shares.new routes.new.items) }
    ensures spares { (bounds : Table ℕ) → AreSpares bounds routes.old.items spares.old.items
        → AreSpares bounds routes.new.items spares.new.items }
{
    routes.reserve(1)?;
    spares.reserve(1)?;
    streams.push(network.streams()[stream as usize].ports())?;
    routes.push_reserved(route);
    spares.push_reserved(0);
    shares.enter(network, stream);
    Ok(())
}

/// Keeps this stream no longer, which was taken out of the network where it had this number.
pub(crate) fn leave(
    streams: &mut PortUsers,
    shares: &mut PortShares,
    routes: &mut Vec<Route>,
    spares: &mut Vec<u64>,
    network: &Network,
    number: u32,
    stream: &Stream,
)
    requires keeps { KeepsBefore network.now number stream.now streams.old shares.old routes.old.items }
    requires count { length spares.old.items ≡ length routes.old.items }
    ensures keeps { KeepsStreams network.now streams.new shares.new routes.new.items }
    ensures spares { (bounds : Table ℕ) → AreSpares bounds routes.old.items spares.old.items
        → AreSpares bounds routes.new.items spares.new.items }
{
    streams.take(number, stream.ports());
    routes.remove(number as usize);
    spares.remove(number as usize);
    shares.leave(network, stream, streams);
}
