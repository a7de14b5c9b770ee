//! Searches for the first load, wait or sum that a network can't bear.

ghost use Rattle.std.specs.Prelude.{◌≡◌, ◌<◌, ◌≤◌, length, slice_index_or, All};
ghost use Rattle.ats_network.specs.Edits.{no_stream};
ghost use Rattle.ats_certificate.specs.Form.{IsRow};
ghost use Rattle.ats_certificate.specs.declared.row.Row.{Row};
ghost use Rattle.ats_tally.specs.Listeners.{listener_at};
ghost use Rattle.ats_tally.specs.Reason.{first_some, late, late_for, overload_by, overload_in, overstay};

use crate::delays::Delays;
use crate::needs::need_behind;
use crate::reason::Reason;
use ats_certificate::Row;
use ats_network::Network;
use ats_num::Name;
use ats_num::time::{PS_PER_NS, PS_PER_SECOND};

/// The first of these rows whose rates are more than the whole link.
pub fn first_overload(rows: &[Row]) -> Option<Reason>
    requires { All IsRow rows.now }
    ensures { result ≡ first_some overload_in rows.now }
{
    for row in rows {
        if let Some(reason) = overload(row.port, row.class, row.higher + row.equal) {
            return Some(reason);
        }
    }
    None
}

/// A load of a port and a class, in picoseconds of each second, where it is more than the whole link.
pub fn overload(port: u32, class: u8, load: u128) -> Option<Reason>
    ensures { result ≡ overload_by port class load }
{
    if load <= u128::from(PS_PER_SECOND) {
        return None;
    }
    Some(Reason::Overloaded { port, class, load })
}

/// The first of these rows whose wait and port's spread are, by the clock of the bridge behind its port, longer than
/// the maximum residence time there.
pub fn first_overstay(network: &Network, rows: &[Row]) -> Option<Reason>
    requires ports { All (λ (row : Row). row.port < length network.now.topology.ports) rows.now }
    requires form { All IsRow rows.now }
    ensures { result ≡ first_some (overstay network.now) rows.now }
{
    for row in rows {
        if let Some(reason) = overstay(network, row) {
            return Some(reason);
        }
    }
    None
}

// The row's wait and its port's spread, by the clock of the bridge behind, where they are longer than the maximum
// residence time there.
fn overstay(network: &Network, row: &Row) -> Option<Reason>
    requires port { row.now.port < length network.now.topology.ports }
    requires form { IsRow row.now }
    ensures { result ≡ overstay network.now row.now }
{
    let residence_ns = network.residence(row.port)?;
    let need = need_behind(network, row.port, row.wait);
    if need <= u128::from(PS_PER_NS) * u128::from(residence_ns) {
        return None;
    }
    Some(Reason::Residence {
        port: row.port,
        class: row.class,
        need,
    })
}

/// The first stream of a network that is late, by its first listener for which the bounds along the route there are
/// together over its deadline.
pub fn first_late(delays: &Delays) -> Option<Reason>
    ensures { result
        ≡ first_some (late delays.now.network.topology delays.now.rows) delays.now.network.streams }
{
    for stream in 0..delays.network().streams().len() as u32 {
        if let Some(reason) = late(delays, stream) {
            return Some(reason);
        }
    }
    None
}

// The first listener of a stream for which it is late.
fn late(delays: &Delays, stream: u32) -> Option<Reason>
    requires { stream < length delays.now.network.streams }
    ensures { result ≡ late delays.now.network.topology delays.now.rows
        (slice_index_or delays.now.network.streams stream no_stream) }
{
    for leg in 0..delays.network().streams()[stream as usize].legs() {
        if let Some(reason) = late_for(delays, stream, leg) {
            return Some(reason);
        }
    }
    None
}

// The sum of the bounds along the route to a stream's listener, where it is over the stream's deadline.
fn late_for(delays: &Delays, stream: u32, leg: u32) -> Option<Reason>
    requires stream { stream < length delays.now.network.streams }
    requires leg { leg ≤ length (slice_index_or delays.now.network.streams stream no_stream).branches }
    ensures { result ≡ late_for delays.now.rows (slice_index_or delays.now.network.streams stream no_stream)
        (listener_at delays.now.network.topology (slice_index_or delays.now.network.streams stream no_stream) leg) }
{
    let late = &delays.network().streams()[stream as usize];
    let sum = delays.along(stream, leg);
    if sum <= u128::from(late.deadline().0) {
        return None;
    }
    Some(Reason::Deadline {
        stream: late.name(),
        listener: listener_name(delays.network(), stream, leg),
        sum,
    })
}

/// The name by which a stream's listener, that of one leg counted from 0, is told from the first: that of its node;
/// the first has none.
pub fn listener_name(network: &Network, stream: u32, leg: u32) -> Option<Name>
    requires stream { stream < length network.now.streams }
    requires leg { leg ≤ length (slice_index_or network.now.streams stream no_stream).branches }
    ensures { result ≡ (listener_at network.now.topology (slice_index_or network.now.streams stream no_stream)
        leg).name }
{
    if leg == 0 {
        return None;
    }
    Some(network.listener(stream, leg))
}
