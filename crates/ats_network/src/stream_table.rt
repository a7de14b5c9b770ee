//! Streams, found by their names and by the addresses of their frames.

ghost use Rattle.std.specs.Prelude.{◌≡◌, ◌+◌, ◌<◌, ◌≤◌, [], ◌∷◌, ◌++◌, length, Some, None, false};
ghost use Rattle.std.specs.Prelude.{IfSome, OnOk, OnErr, slice_index_or};
ghost use Rattle.ats_num.specs.Places.{place_of};
ghost use Rattle.ats_streams.specs.Rules.{CoversLongest, IsBurst};
ghost use Rattle.ats_streams.specs.Stream.{IsClass};
ghost use Rattle.ats_topology.specs.Node.{AreApart};
ghost use Rattle.ats_network.specs.Edits.{IsLess, classed, no_stream, burst_changed, stream_named, less_named};
ghost use Rattle.ats_network.specs.Network.{AreIdentified, ports_together};
ghost use Rattle.ats_network.specs.Pushes.{place_identified, is_identity_taken};
ghost use Rattle.ats_network.specs.Tables.{stream_names, serial_at, IsUnidentified, Identifies, FindsSame};
ghost use Rattle.ats_network.specs.Tables.{Names, NamesSame};

use crate::network::{MAX_PORTS_TOGETHER, MAX_STREAMS};
use ats_num::Name;
use ats_serials::{place_in, serial_after};
use ats_streams::Stream;
use std::alloc::{AllocError, Global};
use std::collections::BTreeMap;
use std::marker::Model;

/// Streams of different names and different identities, numbered from 0 in the order in which they
/// came. Contracts see the list of them. Beside it each stream has a serial number, and these rise
/// along the list. The maps tell serial numbers, so that when a stream is taken out no other entry
/// changes. The number of all ports is kept too, so that no stream is asked for its own when one more comes.
#[derive(Drop)]
pub(crate) struct StreamTable {
    streams: Vec<Stream>,
    serials: Vec<u64>,
    names: BTreeMap<Name, u64>,
    identities: BTreeMap<(u64, u16), u64>,
    ports: usize,
}

impl Model for StreamTable {
    ghost use Rattle.std.specs.Prelude.{◌≡◌, List};
    ghost use Rattle.ats_streams.specs.Stream.{DeclaredStream};
    ghost use Rattle.ats_network.specs.Network.{ports_together};
    ghost use Rattle.ats_network.specs.Tables.{AreStreams};

    ghost Value = { List DeclaredStream };

    ghost view = { λ t. t.streams.items };

    ghost invariant = { λ t. AreStreams t.streams.items t.serials.items t.names t.identities
        × (t.ports ≡ ports_together t.streams.items) };
}

impl StreamTable {
    /// No streams.
    pub(crate) fn new(alloc: Global) -> Self
        ensures { result ≡ [] }
    {
        StreamTable {
            streams: Vec::new(alloc),
            serials: Vec::new(alloc),
            names: BTreeMap::new(alloc),
            identities: BTreeMap::new(alloc),
            ports: 0,
        }
    }

    /// The streams.
    pub(crate) fn as_slice(&self) -> &[Stream]
        ensures { result.now ≡ self.now }
    {
        self.streams.as_slice()
    }

    /// The ports of the streams, counted together.
    pub(crate) fn ports(&self) -> usize
        ensures { result ≡ ports_together self.now }
    {
        self.ports
    }

    /// The number of the stream with this name; `None` exactly where none has it.
    pub(crate) fn place(&self, name: &Name) -> Option<u32>
        ensures place { result ≡ place_of name.now (stream_names self.now) }
        ensures within { IfSome result (λ place. place < length self.now) }
    {
        let serial = self.names.get(name).copied()?;
        place_in(&self.serials, serial)
    }

    /// The number of the stream with this destination address and VLAN identifier; `None` exactly where none has them.
    pub(crate) fn identified(&self, address: u64, vlan: u16) -> Option<u32>
        ensures { result ≡ place_identified (address, vlan) self.now }
    {
        let serial = self.identities.get(&(address, vlan)).copied()?;
        place_in(&self.serials, serial)
    }

    /// Adds a stream at the end. `AllocError` leaves the table as it was.
    pub(crate) fn push(&mut self, stream: Stream) -> Result<(), AllocError>
        requires absent { place_of stream.name (stream_names self.old) ≡ None }
        requires other { is_identity_taken self.old stream.identity ≡ false }
        requires room { length self.old < MAX_STREAMS }
        requires ports { ports_together self.old + length stream.ports ≤ MAX_PORTS_TOGETHER }
        ensures ok { OnOk result (self.new ≡ self.old ++ stream ∷ []) }
        ensures err { OnErr result (self.new ≡ self.old) }
    {
        let serial = serial_after(&self.serials)?;
        self.streams.reserve(1)?;
        self.serials.reserve(1)?;
        number(&mut self.names, &mut self.identities, &stream, serial)?;
        self.ports += stream.ports().len();
        self.serials.push_reserved(serial);
        self.streams.push_reserved(stream);
        Ok(())
    }

    /// Sets a stream's class at each of its ports. All else stays.
    pub(crate) fn set_class(&mut self, stream: u32, class: u8)
        requires stream { stream < length self.old }
        requires class { IsClass class }
        ensures { self.new ≡ classed self.old stream class }
    {
        self.streams[stream as usize].set_class(class);
    }

    /// Sets a stream's committed burst, in bits. All else stays.
    pub(crate) fn set_burst(&mut self, stream: u32, burst_bits: u64)
        requires stream { stream < length self.old }
        requires covers { CoversLongest burst_bits (slice_index_or self.old stream no_stream).max_octets }
        requires most { IsBurst burst_bits }
        ensures { self.new ≡ burst_changed self.old stream burst_bits }
    {
        self.streams[stream as usize].set_burst(burst_bits);
    }

    /// Takes out the stream with this name; `None` exactly where none has it. The others keep their order.
    pub(crate) fn take(&mut self, name: &Name) -> Option<Stream>
        requires names { AreApart (stream_names self.old) }
        requires identities { AreIdentified self.old }
        ensures result { result ≡ stream_named self.old name.now }
        ensures streams { self.new ≡ less_named self.old name.now }
        ensures less { IfSome result (IsLess self.old self.new) }
    {
        let place = self.place(name)? as usize;
        let stream = self.streams.remove(place);
        self.serials.remove(place);
        self.ports -= stream.ports().len();
        forget(&mut self.names, &mut self.identities, &stream);
        Some(stream)
    }
}

// Gives this serial number to a stream's name, and to its identity where it has one. `AllocError` leaves both maps as
// they were.
fn number(
    names: &mut BTreeMap<Name, u64>,
    identities: &mut BTreeMap<(u64, u16), u64>,
    stream: &Stream,
    serial: u64,
) -> Result<(), AllocError>
    requires { IsUnidentified identities.old stream.now.identity }
    ensures names { OnOk result (Names names.old names.new stream.now.name (Some serial)) }
    ensures identities { OnOk result (Identifies identities.old identities.new stream.now.identity (Some serial)) }
    ensures same_names { OnErr result (NamesSame names.old names.new) }
    ensures same_identities { OnErr result (FindsSame identities.old identities.new) }
{
    let Some(identity) = stream.identity() else {
        names.insert(stream.name(), serial)?;
        return Ok(());
    };
    identities.insert(identity, serial)?;
    match names.insert(stream.name(), serial) {
        Ok(_) => Ok(()),
        Err(_) => {
            identities.remove(&identity);
            Err(AllocError)
        }
    }
}

// Takes a stream's name out of the names, and its identity, where it has one, out of the identities.
fn forget(
    names: &mut BTreeMap<Name, u64>,
    identities: &mut BTreeMap<(u64, u16), u64>,
    stream: &Stream,
)
    ensures names { Names names.old names.new stream.now.name None }
    ensures identities { Identifies identities.old identities.new stream.now.identity None }
{
    names.remove(&stream.name());
    if let Some(declared) = stream.identity() {
        identities.remove(&declared);
    }
}
