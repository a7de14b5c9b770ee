//! Frames that a port is offered.

ghost use Rattle.std.specs.Prelude.{◌≡◌, ◌≤◌};
ghost use Rattle.ats_num.specs.declared.time.TheConstants.{END};
ghost use Rattle.ats_num.specs.Wire.{IsFrameSize};

use crate::sent::Sent;
use ats_num::Ps;
use ats_port_rule::transmission_time;
use ats_queue::Queued;

/// A frame that a port was offered: its number, the number of its sender, the time from which it is eligible, in
/// picoseconds, its octets, counted with the frame check sequence, and its class from 0 to 7.
#[derive(Clone, Copy, Debug, PartialEq, Eq)]
pub struct Offer {
    pub frame: u32,
    pub sender: u32,
    pub eligible: Ps,
    pub octets: u32,
    pub class: u8,
}

impl Offer {
    ghost use Rattle.ats_transmit.specs.Sending.{sent_at};
    ghost use Rattle.ats_transmit.specs.PortQueues.{queued_as, offer_in};

    /// The frame as the queue of its class holds it.
    pub(crate) fn queued(&self) -> Queued
        ensures { result ≡ queued_as self.now }
    {
        Queued {
            frame: self.frame,
            sender: self.sender,
            eligible: self.eligible,
            octets: self.octets,
        }
    }

    /// The offer of a frame that the queue of this class held.
    pub(crate) fn of(class: u8, queued: Queued) -> Offer
        ensures { result ≡ offer_in class queued }
    {
        Offer {
            frame: queued.frame,
            sender: queued.sender,
            class,
            eligible: queued.eligible,
            octets: queued.octets,
        }
    }

    /// The transmission of this frame from `start` on.
    pub(crate) fn sent_at(&self, ps_per_bit: u32, start: Ps) -> Sent
        requires size { IsFrameSize self.now.octets }
        requires start { start.0 ≤ END }
        ensures { result ≡ sent_at ps_per_bit self.now start.0 }
    {
        let end = Ps(start.0 + transmission_time(ps_per_bit, self.octets));
        Sent {
            frame: self.frame,
            sender: self.sender,
            class: self.class,
            octets: self.octets,
            eligible: self.eligible,
            start,
            end,
        }
    }
}
