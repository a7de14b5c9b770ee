//! The releases of a station that records tell of.

ghost use Rattle.std.specs.Prelude.{◌≡◌, ◌+◌, ◌-◌, ◌<◌, ◌≤◌, length, All, IfOk, OnOk, MatchResult, Ok};
ghost use Rattle.ats_num.specs.Failure.{Fails, GivesSeen};
ghost use Rattle.ats_capture.specs.Reading.{IsLongEnough};
ghost use Rattle.ats_capture.specs.Seen.{seen};
ghost use Rattle.ats_capture.specs.Traffic.{first_time, no_traffic, traffic_of, with_record};
ghost use Rattle.ats_trace.specs.Releases.{AreReleases, HaveFewPorts, ports_of_frames};
ghost use Rattle.ats_trace.specs.declared.run.TheConstants.{MAX_HOPS};

use crate::fault::JoinFault;
use crate::record::{release_at, stream_of};
use ats_network::Network;
use ats_num::Failure;
use ats_num::wire::MAX_OCTETS;
use ats_pcap::Record;
use ats_trace::Release;
use std::alloc::Global;

/// What the records of a capture that was made at a station come to.
#[derive(Drop)]
pub struct StationTraffic {
    /// The releases of the station's streams, in the order of their records.
    pub releases: Vec<Release>,
    /// How many records there are.
    pub records: u32,
    /// How many of them belong to no stream that begins at the station.
    pub unidentified: u32,
    /// How many belong to one and have more than 2000 octets.
    pub oversize: u32,
}

/// The releases of the streams that begin at a station, as a capture that was made there tells of
/// them, and how many records there are and are left out. A record belongs to the stream of the
/// station that declares its destination address and VLAN identifier. It is released at the greatest
/// time of the records up to it, less the time of the first record. Condition: there are at most
/// 1,000,000 records.
///
/// Where each record has the octets of a frame at least, as each has that a reader of captures gives,
/// the releases may be run on the network. The ports of their frames, a frame having those of its
/// sender, are together at most 3,200,000.
///
/// # Errors
///
/// `Limit`: the number, from 1 among all records, of the first record that is not left out and would
/// be the 200,001st release, or is later than 100,000,000,000,000,000 ps, or with whose frame the
/// ports of the frames would be more than 3,200,000. `Failure::NoMemory`: memory ran out.
pub fn captured(
    alloc: Global,
    network: &Network,
    station: u32,
    records: &[Record],
) -> Result<StationTraffic, Failure<JoinFault>>
    requires { length records.now ≤ 1_000_000 }
    ensures due { GivesSeen seen result (traffic_of network.now station records.now) }
    ensures releases { All IsLongEnough records.now
        → IfOk result (λ traffic. AreReleases network.now traffic.releases.items) }
    ensures few_ports { IfOk result (λ traffic. HaveFewPorts network.now traffic.releases.items) }
{
    let first = first_time(records);
    let mut latest = first;
    let mut traffic = StationTraffic::new(alloc);
    let mut ports = 0; // of the frames so far
    for record in records {
        latest = latest.max(record.nanos);
        ports = traffic.add(network, station, ports, latest - first, record)?;
    }
    Ok(traffic)
}

// The time of the first record, 0 where there is none.
fn first_time(records: &[Record]) -> u64
    ensures { result ≡ first_time records.now }
{
    match records.first() {
        Some(record) => record.nanos,
        None => 0,
    }
}

impl StationTraffic {
    // Of no record.
    fn new(alloc: Global) -> Self
        ensures { seen result ≡ no_traffic }
    {
        StationTraffic {
            releases: Vec::new(alloc),
            records: 0,
            unidentified: 0,
            oversize: 0,
        }
    }

    // With a record more, so many nanoseconds after the first one, where the frames so far have so many ports: how
    // many they have then.
    fn add(
        &mut self,
        network: &Network,
        station: u32,
        ports: usize,
        nanos: u64,
        record: &Record,
    ) -> Result<usize, Failure<JoinFault>>
        requires few { self.old.records < 1_000_000 }
        requires unidentified { self.old.unidentified ≤ self.old.records }
        requires oversize { self.old.oversize ≤ self.old.records }
        requires ports { ports ≡ ports_of_frames network.now self.old.releases.items }
        requires few_ports { ports ≤ MAX_HOPS }
        ensures due { MatchResult result
            (λ _. with_record network.now station nanos (seen self.old) «record».now ≡ Ok (seen self.new))
            (λ e. Fails e (with_record network.now station nanos (seen self.old) «record».now)) }
        ensures counted { OnOk result (self.new.records ≡ self.old.records + 1) }
        ensures unidentified { OnOk result (self.new.unidentified ≤ self.old.unidentified + 1) }
        ensures oversize { OnOk result (self.new.oversize ≤ self.old.oversize + 1) }
        ensures ports { IfOk result (λ ports. ports ≡ ports_of_frames network.now self.new.releases.items) }
        ensures few_ports { IfOk result (λ ports. ports ≤ MAX_HOPS) }
    {
        let number = self.records + 1;
        let mut ports = ports;
        match stream_of(network, station, record) {
            None => self.unidentified += 1,
            Some(sender) => {
                if record.octets > u64::from(MAX_OCTETS) {
                    self.oversize += 1;
                } else {
                    let octets = record.octets as u32;
                    ports += network.sender_ports(sender).len();
                    let before = self.releases.len();
                    let release = release_at(number, before, ports, nanos, sender, octets)?;
                    self.releases.push(release)?;
                }
            }
        }
        self.records = number;
        Ok(ports)
    }
}
