//! How a capture writes its numbers, and what its header says.

ghost use Rattle.std.specs.Prelude.{◌≡◌, ◌+◌, ◌≤◌, ◌<◌, ◌^◌, length};
ghost use Rattle.ats_pcap.specs.Capture.{form_of, header_fault, is_magic, link_fault, magic_fault, nanos_of, order_of};
ghost use Rattle.ats_pcap.specs.Capture.{version_fault};
ghost use Rattle.ats_pcap.specs.Numbers.{number16, number32};

use crate::fault::CaptureFault;

/// The bytes of a capture's header.
pub const HEADER_BYTES: usize = 24;

// The magic numbers of captures, and the one that a pcapng file begins with.
const MICROSECONDS: u32 = 0xA1B2_C3D4;

const NANOSECONDS: u32 = 0xA1B2_3C4D;

const PCAPNG: u32 = 0x0A0D_0D0A;

/// The order in which the bytes of a number stand.
#[derive(Clone, Copy, Debug, PartialEq, Eq)]
pub enum ByteOrder {
    /// The lowest byte first.
    LowFirst,
    /// The highest byte first.
    HighFirst,
}

/// What the fraction of a second is counted in.
#[derive(Clone, Copy, Debug, PartialEq, Eq)]
pub enum Fraction {
    /// In 1,000 nanoseconds.
    Microseconds,
    /// In nanoseconds.
    Nanoseconds,
}

/// How a capture writes its numbers and its times.
#[derive(Clone, Copy, Debug, PartialEq, Eq)]
pub struct Form {
    /// The order of the bytes of each number.
    pub order: ByteOrder,
    /// What the fractions of its times are.
    pub fraction: Fraction,
}

impl Fraction {
    // How many nanoseconds one has.
    pub(crate) fn nanos(self) -> u64
        ensures value { result ≡ nanos_of self }
        ensures most { result ≤ 1000 }
    {
        match self {
            Fraction::Microseconds => 1000,
            Fraction::Nanoseconds => 1,
        }
    }
}

impl ByteOrder {
    // The number of 32 bits at this place.
    #[tactic(auto, unfolding(crate::specs::Numbers::number32))]
    pub(crate) fn number32(self, place: usize, bytes: &[u8]) -> u32
        requires { place + 4 ≤ length bytes.now }
        ensures { result ≡ number32 self place bytes.now }
    {
        let mut four = [0; 4];
        four.copy_from_slice(&bytes[place..place + 4]);
        match self {
            ByteOrder::LowFirst => u32::from_le_bytes(four),
            ByteOrder::HighFirst => u32::from_be_bytes(four),
        }
    }

    // The number of 16 bits at this place.
    #[tactic(auto, unfolding(crate::specs::Numbers::number16))]
    pub(crate) fn number16(self, place: usize, bytes: &[u8]) -> u16
        requires { place + 2 ≤ length bytes.now }
        ensures { result ≡ number16 self place bytes.now }
    {
        let mut two = [0; 2];
        two.copy_from_slice(&bytes[place..place + 2]);
        match self {
            ByteOrder::LowFirst => u16::from_le_bytes(two),
            ByteOrder::HighFirst => u16::from_be_bytes(two),
        }
    }
}

fn is_magic(n: u32) -> bool
    ensures { result ≡ is_magic n }
{
    n == MICROSECONDS || n == NANOSECONDS
}

// The order in which the first number of a header is a magic one, or HighFirst where it is in neither.
#[tactic(auto, unfolding(crate::specs::Capture::order_of))]
fn order_of(header: &[u8]) -> ByteOrder
    requires { 4 ≤ length header.now }
    ensures { result ≡ order_of header.now }
{
    if is_magic(ByteOrder::LowFirst.number32(0, header)) {
        ByteOrder::LowFirst
    } else {
        ByteOrder::HighFirst
    }
}

impl Form {
    // What the first number of a header says of all others.
    #[tactic(auto, unfolding(crate::specs::Capture::form_of))]
    pub(crate) fn of(header: &[u8]) -> Self
        requires { 4 ≤ length header.now }
        ensures { result ≡ form_of header.now }
    {
        let order = order_of(header);
        let fraction = if order.number32(0, header) == NANOSECONDS {
            Fraction::Nanoseconds
        } else {
            Fraction::Microseconds
        };
        Form { order, fraction }
    }
}

fn magic_fault(header: &[u8]) -> Option<CaptureFault>
    ensures { result ≡ magic_fault header.now }
{
    if header.len() < 4 {
        return None;
    }
    if ByteOrder::HighFirst.number32(0, header) == PCAPNG {
        return Some(CaptureFault::PcapNg);
    }
    if is_magic(order_of(header).number32(0, header)) {
        return None;
    }
    Some(CaptureFault::BadMagic)
}

fn version_fault(header: &[u8]) -> Option<CaptureFault>
    ensures { result ≡ version_fault header.now }
{
    if header.len() < 8 {
        return None;
    }
    let order = order_of(header);
    let version = (order.number16(4, header), order.number16(6, header));
    if version.0 == 2 && version.1 == 4 {
        return None;
    }
    Some(CaptureFault::BadVersion)
}

fn link_fault(header: &[u8]) -> Option<CaptureFault>
    ensures { result ≡ link_fault header.now }
{
    if header.len() < HEADER_BYTES {
        return None;
    }
    if order_of(header).number32(20, header) == 1 {
        return None;
    }
    Some(CaptureFault::BadLink)
}

// The first fault that the bytes of a header show.
#[tactic(auto, unfolding(crate::specs::Capture::header_fault))]
pub(crate) fn header_fault(header: &[u8]) -> Option<CaptureFault>
    ensures { result ≡ header_fault header.now }
{
    if let Some(fault) = magic_fault(header) {
        return Some(fault);
    }
    if let Some(fault) = version_fault(header) {
        return Some(fault);
    }
    link_fault(header)
}
