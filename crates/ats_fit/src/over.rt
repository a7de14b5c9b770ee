//! Which senders declare less than what is measured.

ghost use Rattle.std.specs.Prelude.{◌≡◌, length};
ghost use Rattle.ats_network.specs.Network.{senders_of};
ghost use Rattle.ats_network.specs.SenderView.{sender_of};
ghost use Rattle.ats_network.specs.Sender.{declared_of};
ghost use Rattle.ats_fit.specs.Over.{are_sizes_over, is_burst_over, is_over, senders_over};

use crate::measured::{Measured, Sizes};
use ats_network::{Network, Sender};

/// How many senders of a network are over what they declare, by what is measured of each of them, in their order: the
/// streams whose least burst is above the declared one, and the streams and flows whose least or greatest octets are no
/// declared size.
pub fn senders_over(network: &Network, measured: &[Measured]) -> u32
    requires { length measured.now ≡ length (senders_of network.now) }
    ensures { result ≡ senders_over network.now measured.now }
{
    let mut over = 0;
    for sender in 0..network.senders() {
        if is_over(&network.sender(sender), &measured[sender as usize]) {
            over += 1;
        }
    }
    over
}

/// The burst that a sender declares, in bits; 0 for a flow, which declares none.
pub fn declared_burst(sender: &Sender<'_>) -> u64
    ensures { result ≡ (sender_of sender.now).burst_bits }
{
    match sender {
        Sender::Stream(stream) => stream.burst_bits(),
        Sender::Flow(_) => 0,
    }
}

// Whether what is measured of a sender is over what it declares.
fn is_over(sender: &Sender<'_>, measured: &Measured) -> bool
    ensures { result ≡ is_over (sender_of sender.now, measured.now) }
{
    is_burst_over(declared_burst(sender), measured.burst_bits)
        || are_sizes_over(sender, measured.sizes)
}

// Whether a least burst, where there is one, is above what is declared.
fn is_burst_over(declared: u64, burst_bits: Option<u64>) -> bool
    ensures { result ≡ is_burst_over declared burst_bits }
{
    match burst_bits {
        Some(burst) => burst > declared,
        None => false,
    }
}

// Whether the least or the greatest octets, where there are any, are no size that a sender declares.
fn are_sizes_over(sender: &Sender<'_>, sizes: Option<Sizes>) -> bool
    ensures { result ≡ are_sizes_over (declared_of (sender_of sender.now)) sizes }
{
    match sizes {
        Some(sizes) => !(sender.allows(sizes.least) && sender.allows(sizes.greatest)),
        None => false,
    }
}
