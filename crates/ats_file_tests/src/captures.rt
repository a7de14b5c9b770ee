//! Captures, record by record: byte by byte, cut in two at each place, and in random pieces.

ghost use Rattle.std.specs.Prelude.{◌+◌, ◌<◌, ◌≤◌};

use ats_num::Failure;
use ats_pcap::{CaptureFault, Reader, Record};
use std::alloc::{AllocGlobal, Global};

// Two records with times in microseconds, the lowest byte of each number first. The second is cut.
pub(crate) const LOW: [u8; 110] = [
    0xd4, 0xc3, 0xb2, 0xa1, 0x02, 0, 0x04, 0, 0, 0, 0, 0, 0, 0, 0, 0, 0xff, 0xff, 0, 0, 0x01, 0, 0,
    0, 0, 0xf1, 0x53, 0x65, 0, 0, 0, 0, 0x2a, 0, 0, 0, 0x2a, 0, 0, 0, 0x02, 0, 0, 0, 0, 0x01, 0x02,
    0, 0, 0, 0, 0x11, 0x81, 0, 0xc0, 0x01, 0x08, 0, 0, 0, 0, 0, 0, 0, 0, 0, 0, 0, 0, 0, 0, 0, 0, 0,
    0, 0, 0, 0, 0, 0, 0, 0, 0, 0xf1, 0x53, 0x65, 0x0a, 0, 0, 0, 0x0c, 0, 0, 0, 0xee, 0x05, 0, 0,
    0x02, 0, 0, 0, 0, 0x01, 0x02, 0, 0, 0, 0, 0x11,
];

// The first of these records with its time in nanoseconds, the highest byte first.
const HIGH: [u8; 82] = [
    0xa1, 0xb2, 0x3c, 0x4d, 0, 0x02, 0, 0x04, 0, 0, 0, 0, 0, 0, 0, 0, 0, 0, 0xff, 0xff, 0, 0, 0,
    0x01, 0x65, 0x53, 0xf1, 0, 0, 0, 0, 0, 0, 0, 0, 0x2a, 0, 0, 0, 0x2a, 0x02, 0, 0, 0, 0, 0x01,
    0x02, 0, 0, 0, 0, 0x11, 0x81, 0, 0xc0, 0x01, 0x08, 0, 0, 0, 0, 0, 0, 0, 0, 0, 0, 0, 0, 0, 0, 0,
    0, 0, 0, 0, 0, 0, 0, 0, 0, 0,
];

const FIRST: Record = Record {
    nanos: 1_700_000_000_000_000_000,
    octets: 64,
    identity: Some((0x0200_0000_0001, 1)),
};

const SECOND: Record = Record {
    nanos: 1_700_000_000_000_010_000,
    octets: 1522,
    identity: None,
};

// What a reader answers that is fed these bytes in pieces of this size.
fn in_pieces(alloc: Global, bytes: &[u8], size: usize) -> Result<Vec<Record>, Failure<CaptureFault>>
    requires { 0 < size }
{
    let mut reader = Reader::new(alloc);
    for piece in bytes.chunks(size) {
        reader.feed(piece)?;
    }
    reader.finish()
}

// The same of two pieces.
fn in_two(alloc: Global, front: &[u8], back: &[u8]) -> Result<Vec<Record>, Failure<CaptureFault>> {
    let mut reader = Reader::new(alloc);
    reader.feed(front)?;
    reader.feed(back)?;
    reader.finish()
}

// The next of the numbers that are drawn.
fn next(drawn: u32) -> u32 {
    (drawn % 65_537 * 75 + 74) % 65_537
}

// The same of pieces whose ends are drawn, each with an empty one behind it.
fn in_random(alloc: Global, bytes: &[u8], seed: u32) -> Result<Vec<Record>, Failure<CaptureFault>> {
    let mut reader = Reader::new(alloc);
    let mut piece = Vec::new(alloc);
    let mut drawn = seed;
    for byte in bytes {
        piece.push(*byte)?;
        drawn = next(drawn);
        if drawn % 8 == 0 {
            reader.feed(piece.as_slice())?;
            reader.feed(&[])?;
            piece.clear();
        }
    }
    reader.feed(piece.as_slice())?;
    reader.finish()
}

fn are(records: Result<Vec<Record>, Failure<CaptureFault>>, due: &[Record]) -> bool {
    match records {
        Ok(records) => records.as_slice() == due,
        Err(_) => false,
    }
}

// What a reader answers that is fed the first capture with these four bytes at a place.
fn with(alloc: Global, place: usize, four: [u8; 4]) -> Result<Vec<Record>, Failure<CaptureFault>>
    requires { place + 4 ≤ 110 }
{
    let mut bytes = LOW;
    bytes[place..place + 4].copy_from_slice(&four);
    in_pieces(alloc, &bytes, 7)
}

#[test]
fn cut_anywhere(rt: HostRuntime) {
    for cut in 0..=LOW.len() {
        let (front, back) = LOW.split_at(cut);
        assert!(rt; are(in_two(rt.alloc(), front, back), &[FIRST, SECOND]));
    }
    assert!(rt; are(in_pieces(rt.alloc(), &LOW, 1), &[FIRST, SECOND]));
    assert!(rt; are(in_pieces(rt.alloc(), &HIGH, 1), &[FIRST]));
}

#[test]
fn random_pieces(rt: HostRuntime) {
    let mut wrong = LOW;
    wrong[32..36].copy_from_slice(&[1, 0, 4, 0]);
    for seed in 0..200 {
        assert!(rt; are(in_random(rt.alloc(), &LOW, seed), &[FIRST, SECOND]));
        assert!(rt; are(in_random(rt.alloc(), &HIGH, seed), &[FIRST]));
        let cut = in_random(rt.alloc(), &LOW[..109], seed);
        assert!(rt; cut.err() == Some(Failure::Fault(CaptureFault::CutShort(2))));
        let answer = in_random(rt.alloc(), &wrong, seed);
        assert!(rt; answer.err() == Some(Failure::Fault(CaptureFault::RecordTooLong(1))));
    }
}

#[test]
fn first_faults(rt: HostRuntime) {
    let wrong = [
        (0, [0xd5, 0xc3, 0xb2, 0xa1], CaptureFault::BadMagic),
        (0, [0x0a, 0x0d, 0x0d, 0x0a], CaptureFault::PcapNg),
        (4, [3, 0, 4, 0], CaptureFault::BadVersion),
        (4, [2, 0, 5, 0], CaptureFault::BadVersion),
        (20, [1, 0, 0, 4], CaptureFault::BadLink),
        (32, [0, 0, 4, 0], CaptureFault::CutShort(1)),
        (32, [1, 0, 4, 0], CaptureFault::RecordTooLong(1)),
        (90, [13, 0, 0, 0], CaptureFault::CutShort(2)),
    ];
    for (place, four, fault) in &wrong {
        let answer = with(rt.alloc(), *place, *four);
        assert!(rt; answer.err() == Some(Failure::Fault(*fault)));
    }
}

#[test]
fn original_lengths(rt: HostRuntime) {
    assert!(rt; are(with(rt.alloc(), 36, [0; 4]), &[FIRST, SECOND]));
    let longest = Record {
        octets: 4_294_967_299,
        ..FIRST
    };
    assert!(rt; are(with(rt.alloc(), 36, [255; 4]), &[longest, SECOND]));
}
