//! The bytes of a frame that are captured.

ghost use Rattle.std.specs.Prelude.{◌≡◌, ◌++◌, ◌≤◌, OnOk};
ghost use Rattle.ats_streams.specs.Stream.{MayIdentify};
ghost use Rattle.ats_port_capture.specs.Frame.{identity_of, tagged, untagged};

use crate::numbers::{write_high_first16, write_high_first32, write_high_first48};
use ats_network::Network;
use std::alloc::AllocError;

/// The captured bytes of a frame with a VLAN tag.
pub(crate) const TAGGED_BYTES: u32 = 18;

/// The captured bytes of a frame without one.
pub(crate) const UNTAGGED_BYTES: u32 = 14;

// The source address of every frame, a locally administered one.
const SOURCE: u64 = 0x0200_0000_0000;

// The type of a VLAN tag (IEEE Std 802.1Q, 9.6).
const VLAN_TAG: u16 = 0x8100;

// The type of frames of local experiments (IEEE Std 802, Local Experimental EtherType 1).
const LOCAL_EXPERIMENT: u16 = 0x88B5;

// What the destination address begins with that has a sender's number in it.
const NUMBERED: u16 = 0x0600;

// What the priority in a tag counts (IEEE Std 802.1Q, 9.6).
const PRIORITY: u16 = 0x2000;

// The destination address and VLAN identifier that a sender declares.
pub(crate) fn identity_of(network: &Network, sender: u32) -> Option<(u64, u16)>
    ensures value { result ≡ identity_of network.now sender }
    ensures valid { MayIdentify result }
{
    network.streams().get(sender as usize)?.identity()
}

// The first bytes of a frame with this address and VLAN identifier, which is sent in a class.
#[tactic(auto, unfolding(crate::specs::Frame::tagged))]
pub(crate) fn write_tagged(
    out: &mut Vec<u8>,
    address: u64,
    vlan: u16,
    class: u8,
) -> Result<(), AllocError>
    requires vlan { vlan ≤ 4094 }
    requires class { class ≤ 7 }
    ensures { OnOk result (out.new.items ≡ out.old.items ++ tagged address vlan class) }
{
    write_high_first48(out, address)?;
    write_high_first48(out, SOURCE)?;
    write_high_first16(out, VLAN_TAG)?;
    write_high_first16(out, u16::from(class) * PRIORITY + vlan)?;
    write_high_first16(out, LOCAL_EXPERIMENT)
}

// The first bytes of a frame of a sender that declares no address and no VLAN identifier.
#[tactic(auto, unfolding(crate::specs::Frame::untagged))]
pub(crate) fn write_untagged(out: &mut Vec<u8>, sender: u32) -> Result<(), AllocError>
    ensures { OnOk result (out.new.items ≡ out.old.items ++ untagged sender) }
{
    write_high_first16(out, NUMBERED)?;
    write_high_first32(out, sender)?;
    write_high_first48(out, SOURCE)?;
    write_high_first16(out, LOCAL_EXPERIMENT)
}
