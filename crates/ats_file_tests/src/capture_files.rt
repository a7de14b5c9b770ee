//! Captures that are read from files, and what their records come to at a station.

ghost use Rattle.std.specs.Prelude.{◌≤◌, length};

use crate::captures::LOW;
use ats_capture::{JoinFault, RecordsFault, StationTraffic, capture_records, captured};
use ats_fixtures::lines::line;
use ats_fixtures::trees::{fork, hub};
use ats_io::MemFiles;
use ats_network::Network;
use ats_num::{Failure, Ps};
use ats_pcap::{CaptureFault, Record};
use ats_trace::Release;
use std::alloc::AllocGlobal;
use std::process::Abort;

// A header with times in microseconds, the lowest byte of each number first.
const HEADER: [u8; 24] = [
    0xd4, 0xc3, 0xb2, 0xa1, 2, 0, 4, 0, 0, 0, 0, 0, 0, 0, 0, 0, 0xff, 0xff, 0, 0, 1, 0, 0, 0,
];

// A record of a frame of stream `a`, shorter than the shortest that is sent.
const RECORD: [u8; 58] = [
    0, 0xf1, 0x53, 0x65, 0, 0, 0, 0, 42, 0, 0, 0, 42, 0, 0, 0, 2, 0, 0, 0, 0, 1, 2, 0, 0, 0, 0,
    0x11, 0x81, 0, 0xc0, 1, 8, 0, 0, 0, 0, 0, 0, 0, 0, 0, 0, 0, 0, 0, 0, 0, 0, 0, 0, 0, 0, 0, 0, 0,
    0, 0,
];

// What identifies the frames of stream `a`, and of no stream.
const A: Option<(u64, u16)> = Some((0x0200_0000_0001, 1));

const OTHER: Option<(u64, u16)> = Some((0x0200_0000_0001, 2));

// The header and so many such records.
fn capture(rt: &(impl Abort + AllocGlobal), records: u32) -> Vec<u8> {
    let mut bytes = Vec::from_slice(rt.alloc(), &HEADER).expect(rt, "room");
    for _ in 0..records {
        bytes.extend_from_slice(&RECORD).expect(rt, "room");
    }
    bytes
}

// What is read from a file with these bytes, where the read with this number fails, or none where it is 0.
fn read(
    rt: &(impl Abort + AllocGlobal),
    bytes: Vec<u8>,
    fails: u32,
) -> Result<Vec<Record>, Failure<RecordsFault>> {
    let name = String::from_str(rt.alloc(), "c").expect(rt, "room");
    let files = vec![in rt.alloc(); (name, bytes)].expect(rt, "room");
    let reads = vec![in rt.alloc(); fails].expect(rt, "room");
    let mut files = MemFiles::new(rt.alloc(), files, reads).expect(rt, "room");
    capture_records(rt.alloc(), &mut files, "c")
}

#[test]
fn a_record_over_the_edge_of_the_window(rt: HostRuntime) {
    match read(&rt, capture(&rt, 2000), 0) {
        Ok(records) => {
            assert!(rt; records.len() == 2000);
            let first = Record {
                nanos: 1_700_000_000_000_000_000,
                octets: 64,
                identity: A,
            };
            for found in &records {
                assert!(rt; *found == first);
            }
        }
        Err(_) => panic!(rt; "no capture"),
    }
}

#[test]
fn a_fault_ends_the_reading(rt: HostRuntime) {
    let mut bytes = vec![in rt.alloc(); 0u8; 70_000].expect(&rt, "room");
    bytes[..4].copy_from_slice(&[0x0a, 0x0d, 0x0d, 0x0a]);
    let answer = read(&rt, bytes, 2);
    let fault = RecordsFault::Capture(CaptureFault::PcapNg);
    assert!(rt; answer.err() == Some(Failure::Fault(fault)));
}

#[test]
fn a_read_that_fails(rt: HostRuntime) {
    for number in 1..=3 {
        let answer = read(&rt, capture(&rt, 2000), number);
        assert!(rt; answer.err() == Some(Failure::Fault(RecordsFault::Failed)));
    }
}

#[test]
fn an_end_inside_a_record(rt: HostRuntime) {
    let mut bytes = capture(&rt, 1300);
    let _last = bytes.pop();
    let fault = RecordsFault::Capture(CaptureFault::CutShort(1300));
    assert!(rt; read(&rt, bytes, 0).err() == Some(Failure::Fault(fault)));
}

// How many records a front of so many bytes has, where it ends behind the header or a record.
fn due(length: usize) -> Result<usize, CaptureFault> {
    match length {
        0..=23 => Err(CaptureFault::CutShort(0)),
        24 => Ok(0),
        25..=81 => Err(CaptureFault::CutShort(1)),
        82 => Ok(1),
        83..=109 => Err(CaptureFault::CutShort(2)),
        _ => Ok(2),
    }
}

#[test]
fn each_front_of_a_capture(rt: HostRuntime) {
    for length in 0..=LOW.len() {
        let front = Vec::from_slice(rt.alloc(), &LOW[..length]).expect(&rt, "room");
        let found = match read(&rt, front, 0) {
            Ok(records) => Ok(records.len()),
            Err(Failure::Fault(RecordsFault::Capture(fault))) => Err(fault),
            Err(_) => panic!(rt; "no capture"),
        };
        assert!(rt; found == due(length));
    }
}

// What these records come to at a station of a network.
fn judged(
    rt: &(impl Abort + AllocGlobal),
    network: Option<Network>,
    station: u32,
    records: &[Record],
) -> Result<StationTraffic, JoinFault>
    requires { length records.now ≤ 1_000_000 }
{
    let Some(network) = network else {
        panic!(rt; "no network");
    };
    match captured(rt.alloc(), &network, station, records) {
        Ok(traffic) => Ok(traffic),
        Err(Failure::Fault(fault)) => Err(fault),
        Err(Failure::NoMemory) => panic!(rt; "no memory"),
    }
}

// A record at this time.
fn at(nanos: u64, octets: u64, identity: Option<(u64, u16)>) -> Record {
    Record {
        nanos,
        octets,
        identity,
    }
}

// Records of frames of stream `a`, one of them too long, and of frames of no stream.
fn records() -> [Record; 6] {
    [
        at(7_000, 64, OTHER),
        at(7_005, 64, A),
        at(7_003, 2000, A),
        at(7_010, 2001, A),
        at(6_000, 100, A),
        at(7_020, 64, None),
    ]
}

// Stops where they come to other releases of station s1 in a network.
fn are_released(rt: &(impl Abort + AllocGlobal), network: Option<Network>) {
    let due = [(5_000, 64), (5_000, 2000), (10_000, 100)];
    match judged(rt, network, 0, &records()) {
        Ok(traffic) => {
            assert!(rt; traffic.releases.len() == 3);
            for (place, (time, octets)) in due.iter().enumerate() {
                let release = Release {
                    at: Ps(*time),
                    sender: 0,
                    octets: *octets,
                };
                assert!(rt; traffic.releases.get(place) == Some(&release));
            }
            assert!(rt; traffic.records == 6);
            assert!(rt; traffic.unidentified == 2);
            assert!(rt; traffic.oversize == 1);
        }
        Err(_) => panic!(rt; "a limit"),
    }
}

#[test]
fn releases_of_a_station(rt: HostRuntime) {
    are_released(&rt, line(rt.alloc()));
    are_released(&rt, fork(rt.alloc()));
    match judged(&rt, line(rt.alloc()), 1, &records()) {
        Ok(traffic) => assert!(rt; traffic.releases.is_empty() && traffic.unidentified == 6),
        Err(_) => panic!(rt; "a limit"),
    }
}

#[test]
fn limits_of_releases(rt: HostRuntime) {
    let last = [at(3, 64, OTHER), at(100_000_000_000_003, 64, A)];
    assert!(rt; judged(&rt, line(rt.alloc()), 0, &last).is_ok());
    let late = [at(3, 64, OTHER), at(100_000_000_000_004, 64, A)];
    assert!(rt; judged(&rt, line(rt.alloc()), 0, &late).err() == Some(JoinFault::Limit(2)));
    let most = vec![in rt.alloc(); at(0, 64, A); 200_000].expect(&rt, "room");
    assert!(rt; judged(&rt, line(rt.alloc()), 0, &most).is_ok());
    let more = vec![in rt.alloc(); at(0, 64, A); 200_001].expect(&rt, "room");
    assert!(rt; judged(&rt, line(rt.alloc()), 0, &more).err() == Some(JoinFault::Limit(200_001)));
}

// Each frame of the hub has 1023 ports.
#[test]
fn limits_of_ports(rt: HostRuntime) {
    let most = vec![in rt.alloc(); at(0, 64, A); 3128].expect(&rt, "room");
    assert!(rt; judged(&rt, hub(rt.alloc(), 1022), 0, &most).is_ok());
    let more = vec![in rt.alloc(); at(0, 64, A); 3129].expect(&rt, "room");
    assert!(rt; judged(&rt, hub(rt.alloc(), 1022), 0, &more).err() == Some(JoinFault::Limit(3129)));
}
