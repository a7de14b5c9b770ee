//! What streams take of ports.

ghost use Rattle.std.specs.Prelude.{◌≡◌, ◌<◌, length};
ghost use Rattle.ats_network.specs.Network.{IsNetwork};
ghost use Rattle.ats_explain.specs.Loads.{has_stream, port_load, rate_at};

use ats_tally::Tallies;

// Whether some stream has the port.
pub(crate) fn uses(tallies: &Tallies, port: u32) -> bool
    requires { port < length tallies.now.topology.ports }
    ensures { result ≡ has_stream tallies.now port }
{
    0 < rate(tallies, port)
}

// The picoseconds of each second that the rates of the streams that have the port take, as it sees them.
pub(crate) fn load(tallies: &Tallies, port: u32) -> u128
    requires { port < length tallies.now.topology.ports }
    ensures { result ≡ port_load tallies.now port }
{
    let ports = tallies.network().topology().ports();
    u128::from(ports[port as usize].ps_per_bit) * u128::from(rate(tallies, port))
}

// These rates together, which are those that the port sees of the class 1 and the classes above it.
fn rate(tallies: &Tallies, port: u32) -> u64
    requires { port < length tallies.now.topology.ports }
    ensures rate { result ≡ rate_at tallies.now port }
    ensures rules { IsNetwork tallies.now }
{
    let _network = tallies.network(); // for what a network keeps
    let tally = tallies.tally(port, 1);
    tally.above + tally.equal
}
