//! The port from which a sender's frames come to the bridge that another of its ports leaves.

ghost use Rattle.std.specs.Prelude.{◌≡◌, ◌<◌, ◌≤◌, length, IfSome};
ghost use Rattle.std.specs.Option.{option_map};
ghost use Rattle.ats_network.specs.Network.{IsNetwork, senders_of};
ghost use Rattle.ats_network.specs.Senders.{sender_at};
ghost use Rattle.ats_streams.specs.Branches.{first_from};
ghost use Rattle.ats_settings.specs.Before.{IsFrom};
ghost use Rattle.ats_settings.specs.Settings.{port_at_place, port_behind};

use ats_network::{Network, Sender};
use ats_streams::Stream;

/// The place, among a sender's ports, of the port before the one at this place; `None` where that one leaves the
/// talker. It takes no memory.
pub fn place_before(network: &Network, sender: u32, place: u32) -> Option<u32>
    requires sender { sender < length (senders_of network.now) }
    requires place { place < length (sender_at network.now sender).ports }
    ensures within { IfSome result (λ before. before < length (sender_at network.now sender).ports) }
    ensures before { option_map (port_at_place network.now sender) result ≡ port_behind network.now sender place }
{
    let from = place_from(network, sender, place);
    if from == 0 {
        return None;
    }
    Some((from - 1) as u32)
}

// The place at which a leg of a sender goes on from the node that the port at this place leaves.
fn place_from(network: &Network, sender: u32, place: u32) -> usize
    requires { sender < length (senders_of network.now) }
    ensures from { IsFrom (sender_at network.now sender).branches place result }
    ensures rules { IsNetwork network.now }
{
    match network.sender(sender) {
        Sender::Stream(stream) => place_in(stream, place),
        Sender::Flow(_) => place as usize,
    }
}

// The same of a stream: where a branch begins, the place of the hop at which it does.
fn place_in(stream: &Stream, place: u32) -> usize
    ensures { IsFrom stream.now.branches place result }
{
    for leg in 1..stream.legs() {
        let branch = stream.branch(leg);
        if branch.first == place {
            return first_place(stream, branch.leg) as usize + branch.hop as usize;
        }
    }
    place as usize
}

// The place of the first port of a leg.
fn first_place(stream: &Stream, leg: u32) -> u32
    requires { leg ≤ length stream.now.branches }
    ensures { result ≡ first_from 0 stream.now.branches leg }
{
    if leg == 0 {
        return 0;
    }
    stream.branch(leg).first
}
