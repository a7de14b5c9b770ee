//! One port.

ghost use Rattle.std.specs.Prelude.{◌≡◌, ◌≢◌, ℕ, ◌+◌, ◌<◌, ◌≤◌, true, false, [], ◌∷◌, length, slice_index, All};
ghost use Rattle.std.specs.Prelude.{IfOk, IsPermutation, MatchOption};
ghost use Rattle.ats_num.specs.declared.time.TheConstants.{END};
ghost use Rattle.ats_num.specs.Wire.{IsFrameSize};
ghost use Rattle.ats_transmit.specs.Sending.{last_of, last_start, last_end};
ghost use Rattle.ats_transmit.specs.State.{opened, offered_of, IsLawfulPort};
ghost use Rattle.ats_transmit.specs.Picks.{MaySend, IsFirstStart, IsPick};

use crate::offer::Offer;
use crate::past::Past;
use crate::pick::Pick;
use crate::waiting::Waiting;
use ats_num::{Ps, Tie};
use std::alloc::{AllocError, Global};
use std::marker::Model;

/// A port. Contracts see its picoseconds per bit, how many frames of each class it may be offered, its tie, the frames
/// that it holds, up to their order, the list of its transmissions, and whether the last of them has still to be
/// finished. It keeps of the last of them when it ends, and its frame.
#[derive(Drop)]
pub struct Port<T: Tie> {
    past: Past,
    ps_per_bit: u32,
    tie: T,
    is_sending: bool,
    waiting: Waiting<T>,
    rooms: [u32; 8],
}

impl<T: Tie> Model for Port<T> {
    ghost use Rattle.ats_transmit.specs.State.{PortState};

    ghost Value = { PortState T };

    ghost use Rattle.ats_transmit.specs.PortQueues.{port_state, IsKept};

    ghost view = { λ p. port_state p.ps_per_bit p.rooms p.tie p.waiting p.past p.is_sending };

    ghost invariant = { λ p. IsKept T.key
        (port_state p.ps_per_bit p.rooms p.tie p.waiting p.past p.is_sending)
        p.waiting };
}

impl<T: Tie> Port<T> {
    /// A free port that holds nothing, on a link of so many picoseconds per bit. Of each class from 0 to 7 it may be
    /// offered as many frames as its room says; room for all of them is taken here. `AllocError` where memory runs out.
    pub fn open(
        alloc: Global,
        ps_per_bit: u32,
        rooms: [u32; 8],
        tie: T,
    ) -> Result<Port<T>, AllocError>
        ensures value { IfOk result (λ port. port ≡ opened ps_per_bit rooms tie) }
        ensures lawful { IfOk result (IsLawfulPort T.key) }
    {
        let waiting = Waiting::open(alloc, &rooms, tie)?;
        Ok(Port {
            past: Past::new(),
            ps_per_bit,
            tie,
            is_sending: false,
            waiting,
            rooms,
        })
    }

    /// Holds a frame of 64 to 2000 octets in a class from 0 to 7. The frame was never offered here, its class had fewer
    /// offers than its room, and it becomes eligible after the start of the last transmission, where there is one. It
    /// takes no memory.
    pub fn offer(&mut self, offer: Offer)
        requires not_held { All (λ o. o.frame ≢ offer.frame) self.old.held }
        requires not_sent { All (λ x. x.frame ≢ offer.frame) self.old.sent }
        requires class { offer.class ≤ 7 }
        requires room { offered_of self.old offer.class < slice_index self.old.rooms offer.class }
        requires octets { IsFrameSize offer.octets }
        requires later { 0 < length self.old.sent → last_start self.old.sent < offer.eligible.0 }
        ensures held { IsPermutation (offer ∷ self.old.held) self.new.held }
        ensures rest { self.new ≡ record self.old { held = self.new.held } }
        ensures lawful { IsLawfulPort T.key self.new }
    {
        self.waiting.insert(offer);
    }

    /// When the port can next start a frame: it is free then, and some frame that it holds is eligible. `None` where it
    /// holds none. It takes no memory.
    pub fn due(&self) -> Option<Ps>
        ensures { MatchOption result (self.now.held ≡ []) (λ time. IsFirstStart self.now.held self.now.sent time.0) }
    {
        let time = self.waiting.next_time()?;
        Some(Ps(time.0.max(self.past.end().0)))
    }

    /// What the port does at `now`, which is at most `END` and not after the time at which it is due. `Busy` exactly
    /// where a transmission is under way, which ends after `now`; `Idle` exactly where none is, and no held frame is
    /// eligible; else `Start`, of the frame of the highest class, of the least eligibility time, and of the least key.
    /// A transmission that was finished ended at `now` or before. It takes no memory.
    pub fn select(&mut self, now: Ps) -> Pick
        requires end { now.0 ≤ END }
        requires due { (time : ℕ) → MaySend self.old.held self.old.sent time → now.0 ≤ time }
        requires under_way { self.old.is_sending ≡ true → now.0 < last_end self.old.sent }
        requires finished { self.old.is_sending ≡ false → last_end self.old.sent ≤ now.0 }
        ensures pick { IsPick (T.key self.old.tie) self.old self.new now.0 result }
        ensures lawful { IsLawfulPort T.key self.new }
    {
        if self.is_sending {
            return Pick::Busy {
                end: self.past.end(),
            };
        }
        let Some(started) = self.waiting.take(now) else {
            return Pick::Idle;
        };
        let sent = started.sent_at(self.ps_per_bit, now);
        self.past.push(&sent);
        self.is_sending = true;
        Pick::Start {
            frame: sent.frame,
            end: sent.end,
        }
    }

    /// Finishes the transmission that is under way and ends at `now`, and gives its frame. It takes no memory.
    pub fn finish(&mut self, now: Ps) -> u32
        requires under_way { self.old.is_sending ≡ true }
        requires end { last_end self.old.sent ≡ now.0 }
        ensures frame { result ≡ (last_of self.old.sent).frame }
        ensures rest { self.new ≡ record self.old { is_sending = false } }
        ensures lawful { IsLawfulPort T.key self.new }
    {
        self.is_sending = false;
        self.past.frame()
    }
}
