//! The transmissions that a port has made.

ghost use Rattle.std.specs.Prelude.{◌≡◌, [], ◌∷◌, ◌++◌};
ghost use Rattle.ats_transmit.specs.Sending.{last_of, last_end};

use crate::sent::Sent;
use ats_history::History;
use ats_num::Ps;
use std::marker::Model;

/// The transmissions of a port, in order, which contracts see as a list. It keeps when the last of them ends, and its
/// frame.
#[derive(Drop)]
pub(crate) struct Past {
    end: Ps,
    frame: u32,
    sent: History<Sent>,
}

impl Model for Past {
    ghost use Rattle.std.specs.Prelude.{List};
    ghost use Rattle.ats_transmit.specs.declared.sent.Sent.{Sent};

    ghost Value = { List Sent };

    ghost use Rattle.ats_transmit.specs.Sending.{IsLast};

    ghost view = { λ p. p.sent.items };

    ghost invariant = { λ p. IsLast p.sent.items p.end.0 p.frame };
}

impl Past {
    /// No transmission was made.
    pub(crate) fn new() -> Past
        ensures { result ≡ [] }
    {
        Past {
            end: Ps(0),
            frame: 0,
            sent: History::new(),
        }
    }

    /// This transmission was made last.
    #[tactic(auto, using(crate::proofs::Pasts::past_pushed))]
    pub(crate) fn push(&mut self, sent: &Sent)
        ensures { self.new ≡ self.old ++ sent.now ∷ [] }
    {
        self.end = sent.end;
        self.frame = sent.frame;
        self.sent = self.sent.and(sent);
    }

    /// When the last transmission ends, 0 before the first.
    pub(crate) fn end(&self) -> Ps
        ensures { result.0 ≡ last_end self.now }
    {
        self.end
    }

    /// The frame of the last transmission, 0 before the first.
    pub(crate) fn frame(&self) -> u32
        ensures { result ≡ (last_of self.now).frame }
    {
        self.frame
    }
}
