//! The legs of a sender: their ports and classes, and where they begin.

ghost use Rattle.std.specs.Prelude.{◌≡◌, ◌-◌, ◌<◌, ◌≤◌, length, slice_index, slice_index_or, Contains};
ghost use Rattle.ats_streams.specs.Branches.{first_from, leg_at, legs_of, no_branch};
ghost use Rattle.ats_network.specs.Class.{class_at};
ghost use Rattle.ats_network.specs.Network.{senders_of};
ghost use Rattle.ats_network.specs.Senders.{sender_at};
ghost use Rattle.ats_trace.specs.Journey.{legs_at};
ghost use Rattle.ats_engine_steps.specs.Steps.{begins_at};

use ats_network::{Network, Sender};
use ats_streams::Stream;

// The place of a leg's first port among those of its sender.
fn first_place(net: &Network, sender: u32, leg: u32) -> u32
    requires sender { sender < length (senders_of net.now) }
    requires leg { leg ≤ length (sender_at net.now sender).branches }
    ensures { result ≡ first_from 0 (sender_at net.now sender).branches leg }
{
    if leg == 0 {
        return 0;
    }
    match net.sender(sender) {
        Sender::Stream(stream) => stream.branch(leg).first,
        Sender::Flow(_) => 0,
    }
}

/// A sender's class at the port of a hop of one of its legs.
pub(crate) fn class_of(net: &Network, sender: u32, leg: u32, hop: u32) -> u8
    requires sender { sender < length (senders_of net.now) }
    requires leg { leg ≤ length (sender_at net.now sender).branches }
    requires hop { hop < length (leg_at (legs_at net.now sender) leg) }
    ensures { result ≡ class_at (sender_at net.now sender) (slice_index (leg_at (legs_at net.now sender) leg) hop) }
{
    let _rules = net.topology(); // for what a network keeps
    net.sender_class(sender, first_place(net, sender, leg) + hop)
}

/// Whether a leg of a sender, other than the trunk, begins at a hop of another one.
pub(crate) fn begins(net: &Network, sender: u32, copy: u32, leg: u32, hop: u32) -> bool
    requires sender { sender < length (senders_of net.now) }
    requires copy { (1 ≤ copy) × (copy ≤ length (sender_at net.now sender).branches) }
    ensures { result ≡ begins_at leg hop (slice_index_or (sender_at net.now sender).branches (copy - 1) no_branch) }
{
    match net.sender(sender) {
        Sender::Stream(stream) => {
            let branch = stream.branch(copy);
            branch.leg == leg && branch.hop == hop
        },
        Sender::Flow(_) => false,
    }
}

/// The leg of a sender that has this port.
pub(crate) fn leg_with(net: &Network, sender: u32, port: u32) -> u32
    requires sender { sender < length (senders_of net.now) }
    requires passes { Contains (sender_at net.now sender).ports port }
    ensures leg { result ≤ length (sender_at net.now sender).branches }
    ensures has { Contains (leg_at (legs_at net.now sender) result) port }
{
    match net.sender(sender) {
        Sender::Stream(stream) => leg_of(stream, port),
        Sender::Flow(_) => 0,
    }
}

// The leg of a stream that has this port.
fn leg_of(stream: &Stream, port: u32) -> u32
    requires passes { Contains stream.now.ports port }
    requires few { length stream.now.ports ≤ 65536 }
    ensures leg { result ≤ length stream.now.branches }
    ensures has { Contains (leg_at (legs_of stream.now.ports stream.now.branches) result) port }
{
    if stream.legs() == 1 {
        return 0;
    }
    leg_of_place(stream, place_among(stream.ports(), port) as u32)
}

// The place of a port among these.
fn place_among(ports: &[u32], port: u32) -> usize
    requires { Contains ports.now port }
    ensures within { result < length ports.now }
    ensures port { slice_index_or ports.now result 0 ≡ port }
{
    let Some(place) = ports.iter().position(|p| *p == port) else {
        unreachable!()
    };
    place
}

// The leg of a stream that has the port at a place: the last one that begins no later.
fn leg_of_place(stream: &Stream, place: u32) -> u32
    ensures leg { result ≤ length stream.now.branches }
    ensures from { first_from 0 stream.now.branches result ≤ place }
    ensures below { result < length stream.now.branches
        → place < (slice_index_or stream.now.branches result no_branch).first }
{
    let mut leg = 0;
    let mut behind = stream.legs();
    while behind - leg > 1 {
        let middle = leg + (behind - leg) / 2;
        if stream.branch(middle).first <= place {
            leg = middle;
        } else {
            behind = middle;
        }
    }
    leg
}
