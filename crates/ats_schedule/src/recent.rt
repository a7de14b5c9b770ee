//! Senders by their names, of which most come again and again.

ghost use Rattle.std.specs.Prelude.{◌≡◌, ◌<◌, length, IsTrue, IfSome, IfOk, Some, vec_len};
ghost use Rattle.ats_network.specs.Network.{senders_of};
ghost use Rattle.ats_schedule.specs.Reading.{sender_named};
ghost use Rattle.ats_schedule.specs.declared.recent.TheConstants.{SLOTS};

use ats_network::Network;
use ats_num::Name;
use std::alloc::{AllocError, Global};

// The slots for names, some for each sender that a network may have.
const SLOTS: usize = 32_768;

/// The senders that were named last, each in the slot of its name. What is remembered is compared
/// with the name before it is answered, so whatever it is, the answers are the same.
#[derive(Drop)]
pub(crate) struct Recent {
    senders: Vec<u16>,
    ghost sized: { vec_len senders ≡ SLOTS },
}

impl Recent {
    /// Sender 0 in each slot. `AllocError` where there is no memory for the slots.
    pub(crate) fn new(alloc: Global) -> Result<Recent, AllocError> {
        let senders = vec![in alloc; 0u16; SLOTS]?;
        Ok(Recent { senders })
    }

    /// The sender that a text names, if it names one.
    pub(crate) fn sender_named(&mut self, network: &Network, text: &[u8]) -> Option<u32>
        ensures due { result ≡ sender_named network.now text.now }
        ensures within { IfSome result (λ sender. sender < length (senders_of network.now)) }
    {
        let slot = slot_of(text);
        let recent = u32::from(self.senders[slot]);
        if has_name(network, recent, text) {
            return Some(recent);
        }
        let found = network.sender_named(&Name::new(text)?)?;
        self.senders[slot] = found as u16;
        Some(found)
    }
}

// The slot of a text.
fn slot_of(text: &[u8]) -> usize
    ensures { result < SLOTS }
{
    let mut mixed: u32 = 0;
    for byte in text {
        mixed = (mixed ^ u32::from(*byte)).wrapping_mul(0x0100_0193);
    }
    mixed as usize % SLOTS
}

// Whether there is a sender with this number, and the text is its name.
fn has_name(network: &Network, sender: u32, text: &[u8]) -> bool
    ensures named { IsTrue result → sender_named network.now text.now ≡ Some sender }
    ensures within { IsTrue result → sender < length (senders_of network.now) }
{
    if sender >= network.senders() {
        return false;
    }
    network.sender_name(sender).bytes() == text
}
