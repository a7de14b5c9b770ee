//! The records of a capture.

ghost use Rattle.std.specs.Prelude.{◌≡◌, ◌+◌, ◌<◌, ◌≤◌, None, length};
ghost use Rattle.ats_pcap.specs.Capture.{captured_of, is_whole, record_fault, record_of};
ghost use Rattle.ats_pcap.specs.Identity.{address_of, identity_of};
ghost use Rattle.ats_pcap.specs.Inside.{whole_size};

use crate::fault::CaptureFault;
use crate::form::{ByteOrder, Form};

/// The most records of a capture.
pub const MAX_RECORDS: usize = 1_000_000;

/// The most captured bytes of a record.
pub const MAX_CAPTURED: u32 = 262_144;

/// The bytes of a record's header.
pub const RECORD_HEADER_BYTES: usize = 16;

/// A frame as it was captured.
#[derive(Clone, Copy, Debug, PartialEq, Eq)]
pub struct Record {
    /// When it was captured, in nanoseconds from the start of 1970 in the time of the capture.
    pub nanos: u64,
    /// The octets of the frame before it was cut, with its check sequence: 64 at least.
    pub octets: u64,
    /// What `identify` gives of its captured bytes.
    pub identity: Option<(u64, u16)>,
}

/// The destination address and the VLAN identifier of a frame that begins with these bytes. `None`
/// exactly where they are fewer than 16, or where bytes 12 and 13 are no VLAN tag (81 00; IEEE Std
/// 802.1Q, 9.6). The priority bits of the tag are not looked at.
#[tactic(auto, unfolding(crate::specs::Identity::identity_of))]
pub fn identify(bytes: &[u8]) -> Option<(u64, u16)>
    ensures { result ≡ identity_of bytes.now }
{
    if bytes.len() < 16 {
        return None;
    }
    if ByteOrder::HighFirst.number16(12, bytes) != 0x8100 {
        return None;
    }
    let vlan = ByteOrder::HighFirst.number16(14, bytes) % 0x1000;
    Some((address_of(bytes), vlan))
}

// The destination address that a frame begins with.
#[tactic(auto, unfolding(crate::specs::Identity::address_of))]
fn address_of(frame: &[u8]) -> u64
    requires { 6 ≤ length frame.now }
    ensures { result ≡ address_of frame.now }
{
    let mut eight = [0; 8];
    eight[2..].copy_from_slice(&frame[..6]);
    u64::from_be_bytes(eight)
}

// How many captured bytes a record has.
pub(crate) fn captured_of(form: Form, front: &[u8]) -> u32
    requires { 16 ≤ length front.now }
    ensures { result ≡ captured_of form front.now }
{
    form.order.number32(8, front)
}

// The fault of a record behind so many others, of which so many bytes are there, these first.
#[tactic(auto, unfolding(crate::specs::Capture::record_fault))]
pub(crate) fn record_fault(
    form: Form,
    before: usize,
    there: usize,
    front: &[u8],
) -> Option<CaptureFault>
    requires front { 16 ≤ there → 16 ≤ length front.now }
    requires few { before ≤ 1_000_000 }
    ensures { result ≡ record_fault form before there front.now }
{
    if there == 0 {
        return None;
    }
    if before == MAX_RECORDS {
        return Some(CaptureFault::Limit(1_000_001));
    }
    if there < RECORD_HEADER_BYTES {
        return None;
    }
    if captured_of(form, front) > MAX_CAPTURED {
        return Some(CaptureFault::RecordTooLong(before as u32 + 1));
    }
    None
}

// Whether all bytes of a record are there, of which there are so many, these first.
#[tactic(auto, unfolding(crate::specs::Capture::is_whole))]
pub(crate) fn is_whole(form: Form, there: usize, front: &[u8]) -> bool
    requires front { 16 ≤ there → 16 ≤ length front.now }
    ensures { result ≡ is_whole form there front.now }
{
    if there < RECORD_HEADER_BYTES {
        return false;
    }
    RECORD_HEADER_BYTES + captured_of(form, front) as usize <= there
}

// How many bytes the record has that these begin with, behind so many others, where all of them are
// there and it has no fault.
#[tactic(auto, unfolding(crate::specs::Inside::whole_size))]
pub(crate) fn whole_size(form: Form, before: usize, bytes: &[u8]) -> Option<usize>
    requires few { before ≤ 1_000_000 }
    ensures { result ≡ whole_size form before bytes.now }
{
    if record_fault(form, before, bytes.len(), bytes).is_some() {
        return None;
    }
    if !is_whole(form, bytes.len(), bytes) {
        return None;
    }
    Some(RECORD_HEADER_BYTES + captured_of(form, bytes) as usize)
}

// The record whose first bytes these are: its header, and of its captured bytes 16 or all.
#[tactic(auto, unfolding(crate::specs::Capture::record_of))]
pub(crate) fn record_of(form: Form, front: &[u8]) -> Record
    requires header { 16 ≤ length front.now }
    requires captured { length front.now ≤ 16 + captured_of form front.now }
    ensures { result ≡ record_of form front.now }
{
    let seconds = form.order.number32(0, front);
    let fraction = form.order.number32(4, front);
    let original = form.order.number32(12, front);
    Record {
        nanos: u64::from(seconds) * 1_000_000_000 + u64::from(fraction) * form.fraction.nanos(),
        octets: u64::from(original.max(60)) + 4,
        identity: identify(&front[RECORD_HEADER_BYTES..]),
    }
}
