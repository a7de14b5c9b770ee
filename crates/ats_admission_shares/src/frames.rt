//! The longest and the shortest frame of the senders of a class at a port.

ghost use Rattle.std.specs.Prelude.{◌≡◌, ◌==◌, ◌<◌, ◌≤◌, if◌then◌else◌, length, map, slice_index_or};
ghost use Rattle.ats_network.specs.Network.{senders_of};
ghost use Rattle.ats_network.specs.Sender.{stream_sender};
ghost use Rattle.ats_network.specs.Class.{PortSender};
ghost use Rattle.ats_certificate.specs.PortSums.{senders_at};
ghost use Rattle.ats_admission_users.specs.Users.{ListsPaths, users_of};
ghost use Rattle.ats_tally.specs.SenderAtPort.{port_sender, KeepsLimits};
ghost use Rattle.ats_admission_shares.specs.Frames.{frames_of, frames_with, is_inside, no_frames, without_rate};
ghost use Rattle.ats_admission_shares.specs.PortShares.{stream_paths};

use ats_admission_users::PortUsers;
use ats_network::Network;
use ats_num::wire_bits;
use ats_tally::SeenSender;
use ats_tally::tally::least_with;

/// The longest and the shortest frame of some senders.
#[derive(Clone, Copy, PartialEq)]
pub(crate) struct Frames {
    /// The wire bits of the longest frame; 0 where there is no sender.
    pub longest: u64,
    /// The wire bits of the shortest frame; `None` where there is no sender.
    pub shortest: Option<u64>,
}

impl Frames {
    /// No sender.
    pub(crate) fn new() -> Self
        ensures { result ≡ no_frames }
    {
        Frames {
            longest: 0,
            shortest: None,
        }
    }

    /// With one sender more, where it is of a class.
    fn with_sender(self, class: u8, sender: &SeenSender) -> Self
        requires { KeepsLimits sender.now }
        ensures { result ≡ (if sender.now.class == class then frames_with (port_sender sender.now) self else self) }
    {
        if sender.class != class {
            return self;
        }
        Frames {
            longest: self.longest.max(wire_bits(sender.max_octets)),
            shortest: Some(least_with(self.shortest, wire_bits(sender.min_octets))),
        }
    }

    // Whether a sender has neither the longest nor the shortest of the frames.
    fn has_inside(self, sender: &SeenSender) -> bool
        requires { KeepsLimits sender.now }
        ensures { result ≡ is_inside (port_sender sender.now) self }
    {
        if wire_bits(sender.max_octets) >= self.longest {
            return false;
        }
        match self.shortest {
            Some(least) => least < wire_bits(sender.min_octets),
            None => false,
        }
    }
}

/// The frames of the senders of a class that use a port, from those with a sender of that class more. They are counted
/// anew only where that sender has the longest or the shortest.
pub(crate) fn frames_left(
    network: &Network,
    streams: &PortUsers,
    port: u32,
    sender: &SeenSender,
    before: Frames,
) -> Frames
    requires port { port < length network.now.topology.ports }
    requires users { ListsPaths (length network.now.topology.ports) (stream_paths network.now) streams.now }
    requires limits { KeepsLimits sender.now }
    requires class { 1 ≤ sender.now.class }
    requires before { before ≡ frames_with (port_sender sender.now)
        (frames_of sender.now.class (senders_at network.now.topology port (senders_of network.now))) }
    ensures { result
        ≡ frames_of sender.now.class (senders_at network.now.topology port (senders_of network.now)) }
{
    if before.has_inside(sender) {
        return before;
    }
    frames_counted(network, streams, port, sender, before)
}

// The same, counted anew until both frames from before are found.
fn frames_counted(
    network: &Network,
    streams: &PortUsers,
    port: u32,
    sender: &SeenSender,
    before: Frames,
) -> Frames
    requires port { port < length network.now.topology.ports }
    requires users { ListsPaths (length network.now.topology.ports) (stream_paths network.now) streams.now }
    requires class { 1 ≤ sender.now.class }
    requires before { before ≡ frames_with (port_sender sender.now)
        (frames_of sender.now.class (senders_at network.now.topology port (senders_of network.now))) }
    ensures { result
        ≡ frames_of sender.now.class (senders_at network.now.topology port (senders_of network.now)) }
{
    let mut frames = Frames::new();
    for place in 0..streams.count(port) {
        let user = seen_user(network, streams, port, place);
        frames = frames.with_sender(sender.class, &user);
        if frames == before {
            return frames;
        }
    }
    frames
}

// One of the streams that use a port, in order, as the port sees it but for its rate and its burst, which no frame
// depends on.
fn seen_user(network: &Network, streams: &PortUsers, port: u32, place: usize) -> SeenSender
    requires port { port < length network.now.topology.ports }
    requires users { ListsPaths (length network.now.topology.ports) (stream_paths network.now) streams.now }
    requires place { place < length (users_of (stream_paths network.now) port) }
    ensures seen { (d : PortSender) → port_sender result ≡ without_rate (slice_index_or
        (senders_at network.now.topology port (map stream_sender network.now.streams)) place d) }
    ensures limits { KeepsLimits result }
{
    let stream = &network.streams()[streams.user(port, place) as usize];
    let declared = stream.declared();
    SeenSender {
        class: stream.classes()[streams.hop(port, place)],
        rate_bps: 0,
        burst_bits: 0,
        min_octets: declared.min_octets,
        max_octets: declared.max_octets,
    }
}
