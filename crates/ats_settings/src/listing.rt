//! The settings of all bridges of a network.

ghost use Rattle.std.specs.Prelude.{◌≡◌, ◌++◌, ◌<◌, length, All, IfOk, OnOk, Some};
ghost use Rattle.ats_network.specs.Network.{senders_of};
ghost use Rattle.ats_network.specs.Rates.{IsRated};
ghost use Rattle.ats_network.specs.Senders.{sender_at};
ghost use Rattle.ats_network.specs.SenderView.{sender_of};
ghost use Rattle.ats_settings.specs.Settings.{AreInOrder, AreSettings, IsSettingOf, port_at_place, port_behind};
ghost use Rattle.ats_settings.specs.Settings.{scheduler_behind, sender_settings, setting_at, settings_at};

use crate::before::place_before;
use crate::setting::{Setting, Shaping};
use ats_network::{Network, Sender, scheduled_at};
use std::alloc::{AllocError, Global};

/// What to set in the bridges of a network: one setting for each stream and flow and each port by which its frames
/// leave a bridge to which they come, so none for the ports that leave its talker. They come by bridge, then by port of
/// reception, then by class there, then by sender, each by its number, and those of one sender there in the order of
/// its ports. It takes memory linear in the number of all senders' ports, and time as sorting these takes; a stream's
/// ports are asked for each of its branches. `AllocError` where there is no memory for them.
pub fn settings(alloc: Global, network: &Network) -> Result<Vec<Setting>, AllocError>
    ensures value { IfOk result (λ settings. AreSettings network.now settings.items) }
    ensures each { IfOk result (λ settings. All (IsSettingOf network.now) settings.items) }
{
    let mut made = Vec::new(alloc);
    for sender in 0..network.senders() {
        push_settings(&mut made, network, sender)?;
    }
    in_order(made)
}

// Appends the settings of a sender, in the order of its ports.
fn push_settings(made: &mut Vec<Setting>, network: &Network, sender: u32) -> Result<(), AllocError>
    requires sender { sender < length (senders_of network.now) }
    ensures { OnOk result (made.new.items ≡ made.old.items ++ sender_settings network.now sender) }
{
    for place in 0..network.sender_ports(sender).len() as u32 {
        push_setting(made, network, sender, place)?;
    }
    Ok(())
}

// Appends the setting at a place of a sender's ports, if there is one.
fn push_setting(
    made: &mut Vec<Setting>,
    network: &Network,
    sender: u32,
    place: u32,
) -> Result<(), AllocError>
    requires sender { sender < length (senders_of network.now) }
    requires place { place < length (sender_at network.now sender).ports }
    ensures { OnOk result (made.new.items ≡ made.old.items ++ settings_at network.now sender place) }
{
    let Some(before) = place_before(network, sender, place) else {
        return Ok(());
    };
    made.push(setting(network, sender, place, before))?;
    Ok(())
}

// The setting of a sender at the bridge that the port at a place leaves, to which the port at another one leads.
fn setting(network: &Network, sender: u32, place: u32, before: u32) -> Setting
    requires sender { sender < length (senders_of network.now) }
    requires place { place < length (sender_at network.now sender).ports }
    requires before { before < length (sender_at network.now sender).ports }
    requires behind { port_behind network.now sender place ≡ Some (port_at_place network.now sender before) }
    ensures { result ≡ setting_at network.now sender place }
{
    let ports = network.sender_ports(sender);
    let received_from = ports[before as usize];
    Setting {
        bridge: network.topology().ports()[received_from as usize].to,
        received_from,
        class: network.sender_class(sender, before),
        sender,
        scheduler: scheduler(network, sender, received_from),
        max_octets: max_octets(network.sender(sender)),
        sent_to: ports[place as usize],
        class_there: network.sender_class(sender, place),
    }
}

// The scheduler behind the port from which a stream's frames come; none for a flow.
fn scheduler(network: &Network, sender: u32, received_from: u32) -> Option<Shaping>
    requires sender { sender < length (senders_of network.now) }
    requires port { received_from < length network.now.topology.ports }
    requires rated { sender < length network.now.streams
        → IsRated network.now.topology (sender_at network.now sender) received_from }
    ensures { result ≡ scheduler_behind network.now sender received_from }
{
    if sender as usize >= network.streams().len() {
        return None;
    }
    let stream = &network.streams()[sender as usize];
    let scheduler = scheduled_at(network.topology(), stream, received_from);
    Some(Shaping {
        rate_bps: scheduler.rate.bps(),
        burst_bits: scheduler.burst_bits,
        residence_ns: network.residence(received_from).unwrap_or(0),
    })
}

// The most octets of a sender's frames.
fn max_octets(sender: Sender) -> u32
    ensures { result ≡ (sender_of sender.entry).max_octets }
{
    match sender {
        Sender::Stream(stream) => stream.max_octets(),
        Sender::Flow(flow) => flow.max_octets(),
    }
}

// Settings by bridge, by port of reception and by class there, and else in the order that they had.
fn in_order(mut made: Vec<Setting>) -> Result<Vec<Setting>, AllocError>
    ensures { IfOk result (λ settings. AreInOrder made.items settings.items) }
{
    made.sort_by_key(|setting| (setting.bridge, setting.received_from, setting.class))?;
    Ok(made)
}
