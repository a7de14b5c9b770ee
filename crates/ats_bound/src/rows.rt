//! Rows with the least waits.

ghost use Rattle.std.specs.Prelude.{◌≡◌, ◌==◌, ◌<◌, ◌≤◌, length, IfOk, IfSome, IsTrue};
ghost use Rattle.std.specs.List.{list_any, position_from};
ghost use Rattle.ats_topology.specs.Rates.{IsPsPerBit};
ghost use Rattle.ats_network.specs.Network.{senders_of};
ghost use Rattle.ats_network.specs.Sender.{stream_sender};
ghost use Rattle.ats_certificate.specs.Form.{IsRow};
ghost use Rattle.ats_network.specs.Senders.{sender_at};
ghost use Rattle.ats_certificate.specs.PortSums.{is_used, senders_at};
ghost use Rattle.ats_tally.specs.Tally.{IsTally, IsWithin, sums_of};
ghost use Rattle.ats_bound.specs.Row.{row_from, row_or_load};
ghost use Rattle.ats_bound.specs.Users.{is_user, with_user};

use ats_certificate::Row;
use ats_network::Network;
use ats_num::time::PS_PER_SECOND;
use ats_streams::Stream;
use ats_tally::tally::MAX_SENDERS;
use ats_tally::{ClassSums, SeenSender, Tally, least_wait};
use ats_topology::Port;

/// Whether some stream of the class uses the port. It takes no memory.
pub fn is_used(network: &Network, port: u32, class: u8) -> bool
    ensures { result ≡ is_used network.now port class }
{
    is_used_by(network.streams(), port, class)
}

/// The row of a port and a class that some stream uses there: what the streams and flows make of them, the least wait
/// that is enough, and its bound. It takes no memory, and looks at each path of the network once. `is_used` tests
/// whether some stream does.
///
/// # Errors
///
/// The load, in picoseconds of each second: what the rates of the class and the higher ones take of the link. It comes
/// exactly where that is more than a second.
pub fn row(network: &Network, port: u32, class: u8) -> Result<Row, u128>
    requires { IsTrue (is_used network.now port class) }
    ensures { result ≡ row_or_load network.now (port, class) }
{
    row_of(network, port, class, tally_at(network, port, class))
}

// Whether one of these streams uses the port and is of the class there.
fn is_used_by(streams: &[Stream], port: u32, class: u8) -> bool
    ensures { result ≡ list_any (λ s. is_user port class (stream_sender s)) streams.now }
{
    streams.iter().any(|stream| is_user(stream, port, class))
}

// Whether a stream uses the port and is of the class there.
fn is_user(stream: &Stream, port: u32, class: u8) -> bool
    ensures { result ≡ is_user port class (stream_sender stream.now) }
{
    match hop_of(stream.ports(), port) {
        Some(hop) => stream.classes()[hop] == class,
        None => false,
    }
}

// The place of a port on a path, if it is there.
fn hop_of(path: &[u32], port: u32) -> Option<usize>
    ensures place { result ≡ position_from (λ p. p == port) 0 path.now }
    ensures within { IfSome result (λ hop. hop < length path.now) }
{
    path.iter().position(|p| *p == port)
}

/// The row of a port and a class, from what the senders at the port make of the class.
pub fn row_of(network: &Network, port: u32, class: u8, tally: Tally) -> Result<Row, u128>
    requires used { IsTrue (is_used network.now port class) }
    requires tally { IsTally class (senders_at network.now.topology port (senders_of network.now)) tally }
    ensures row { result ≡ row_or_load network.now (port, class) }
    ensures form { IfOk result IsRow }
{
    let ports = network.topology().ports();
    row_from(&ports[port as usize], port, class, tally)
}

// What the senders at a port make of a class.
fn tally_at(network: &Network, port: u32, class: u8) -> Tally
    requires { IsTrue (is_used network.now port class) }
    ensures { IsTally class (senders_at network.now.topology port (senders_of network.now)) result }
{
    let mut tally = Tally::new();
    for sender in 0..network.senders() {
        tally = with_user(tally, network, sender, port, class);
    }
    tally
}

// A tally with one sender more, where it uses the port.
fn with_user(tally: Tally, network: &Network, sender: u32, port: u32, class: u8) -> Tally
    requires sender { sender < length (senders_of network.now) }
    requires room { IsWithin MAX_SENDERS tally }
    ensures { result ≡ with_user network.now.topology port class (sender_at network.now sender) tally }
{
    match hop_of(network.sender_ports(sender), port) {
        Some(hop) => tally.with_sender(class, &SeenSender::at(network, sender, hop as u32)),
        None => tally,
    }
}

// The row of a port with this number, where the senders there make so much of a class.
fn row_from(port: &Port, number: u32, class: u8, tally: Tally) -> Result<Row, u128>
    requires ps { IsPsPerBit port.now.ps_per_bit }
    requires latency { port.now.latency.0 ≤ 2000000000 }
    requires class_least { 1 ≤ class }
    requires class_most { class ≤ 7 }
    requires tally { IsWithin MAX_SENDERS tally }
    requires equal { 1 ≤ tally.equal }
    ensures row { result ≡ row_from port.now number class (sums_of port.now.ps_per_bit tally) }
    ensures form { IfOk result IsRow }
{
    let ps = u128::from(port.ps_per_bit);
    let sums = ClassSums::of(tally, port.ps_per_bit);
    let load = sums.higher + sums.equal;
    if load > u128::from(PS_PER_SECOND) {
        return Err(load);
    }
    let wait = least_wait(ps, sums.higher, tally);
    Ok(Row {
        port: number,
        class,
        higher: sums.higher,
        equal: sums.equal,
        bursts: sums.bursts,
        lower: sums.lower,
        least: sums.least,
        wait,
        bound: wait + ps * u128::from(sums.least) + u128::from(port.latency.0),
    })
}
