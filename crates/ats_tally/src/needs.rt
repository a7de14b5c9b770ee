//! How long frames may have to stay behind a port.

ghost use Rattle.std.specs.Prelude.{◌≡◌, ◌<◌, ◌^◌, length};
ghost use Rattle.ats_certificate.specs.Certificate.{need_behind, need_by};

use ats_clock::Clock;
use ats_clock::clock::MILLION;
use ats_network::Network;
use ats_num::ceil_div;

/// How long a frame may have to stay behind a port with this wait, in picoseconds, as the clock there counts them: the
/// wait and the port's spread, and what the clock may gain meanwhile. By the ideal clock this is the wait and the
/// spread.
pub fn need_behind(network: &Network, port: u32, wait: u128) -> u128
    requires port { port < length network.now.topology.ports }
    requires wait { wait < 10 ^ 36 }
    ensures { result ≡ need_behind network.now port wait }
{
    let topology = network.topology();
    let link = &topology.ports()[port as usize];
    need_by(topology.clock(link.to), wait + u128::from(link.spread()))
}

// A need, by a clock: with what the clock may gain meanwhile by its deviation, which is counted for whole millions and
// for the rest, and with its step.
fn need_by(clock: Clock, need: u128) -> u128
    requires { need < 10 ^ 37 }
    ensures { result ≡ need_by clock need }
{
    let parts = u128::from(clock.deviation_ppm());
    if parts == 0 {
        return need + u128::from(clock.step_ps()); // by the ideal clock nothing is divided
    }
    let million = u128::from(MILLION);
    let gain = parts * (need / million) + ceil_div(parts * (need % million), million);
    need + u128::from(clock.step_ps()) + gain
}
