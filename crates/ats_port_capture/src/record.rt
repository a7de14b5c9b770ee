//! The header and the records of a capture.

ghost use Rattle.std.specs.Prelude.{◌≡◌, ◌++◌, ◌/◌, ◌%◌, ◌<◌, ◌^◌, OnOk};
ghost use Rattle.ats_port_capture.specs.Capture.{header};
ghost use Rattle.ats_port_capture.specs.Numbers.{low_first32};
ghost use Rattle.ats_port_capture.specs.Sightings.{IsWritable, sighting_record};

use crate::frame::{TAGGED_BYTES, UNTAGGED_BYTES, identity_of, write_tagged, write_untagged};
use crate::numbers::{write_low_first16, write_low_first32};
use crate::sighting::Sighting;
use ats_network::Network;
use ats_num::time::PS_PER_NS;
use std::alloc::AllocError;

/// The bytes of a capture's header.
pub(crate) const HEADER_BYTES: usize = 24;

/// The most bytes of a record: those of its header, and the captured ones.
pub(crate) const MOST_RECORD_BYTES: usize = 34;

// The magic number of a capture whose fractions of seconds are nanoseconds.
const NANOSECONDS: u32 = 0xA1B2_3C4D;

// The version of the format.
const MAJOR: u16 = 2;

const MINOR: u16 = 4;

// The most captured bytes that a record may have.
const SNAP_LENGTH: u32 = 262_144;

// The link type of Ethernet.
const ETHERNET: u32 = 1;

// The octets of a frame check sequence, which a capture leaves out.
const CHECK_OCTETS: u32 = 4;

const NANOS_PER_SECOND: u64 = 1_000_000_000;

// The header of a capture.
#[tactic(auto, unfolding(crate::specs::Capture::header))]
pub(crate) fn write_header(out: &mut Vec<u8>) -> Result<(), AllocError>
    ensures { OnOk result (out.new.items ≡ out.old.items ++ header) }
{
    write_low_first32(out, NANOSECONDS)?;
    write_low_first16(out, MAJOR)?;
    write_low_first16(out, MINOR)?;
    write_low_first32(out, 0)?;
    write_low_first32(out, 0)?;
    write_low_first32(out, SNAP_LENGTH)?;
    write_low_first32(out, ETHERNET)
}

// What a record has before the captured bytes: its nanosecond, how many of them there are, and how
// many octets the frame had.
fn write_front(out: &mut Vec<u8>, nanos: u64, kept: u32, octets: u32) -> Result<(), AllocError>
    requires { nanos / 1_000_000_000 < 2 ^ 32 }
    ensures { OnOk result (out.new.items ≡ out.old.items
        ++ (low_first32 (nanos / 1_000_000_000) ++ low_first32 (nanos % 1_000_000_000)
        ++ low_first32 kept ++ low_first32 octets)) }
{
    write_low_first32(out, (nanos / NANOS_PER_SECOND) as u32)?;
    write_low_first32(out, (nanos % NANOS_PER_SECOND) as u32)?;
    write_low_first32(out, kept)?;
    write_low_first32(out, octets)
}

// The record of a transmission.
pub(crate) fn write_record(
    out: &mut Vec<u8>,
    network: &Network,
    sighting: &Sighting,
) -> Result<(), AllocError>
    requires { IsWritable sighting.now }
    ensures { OnOk result (out.new.items ≡ out.old.items ++ sighting_record network.now sighting.now) }
{
    let nanos = sighting.start.0 / PS_PER_NS;
    let octets = sighting.octets - CHECK_OCTETS;
    match identity_of(network, sighting.sender) {
        Some((address, vlan)) => {
            write_front(out, nanos, TAGGED_BYTES, octets)?;
            write_tagged(out, address, vlan, sighting.class)
        }
        None => {
            write_front(out, nanos, UNTAGGED_BYTES, octets)?;
            write_untagged(out, sighting.sender)
        }
    }
}
