//! Networks.

ghost use Rattle.std.specs.Prelude.{◌≡◌, ◌↔◌, ◌<◌, ◌≤◌, [], length, None, IsTrue, IsNone, IfSome, IfErr, IsErrOf, OnOk};
ghost use Rattle.std.specs.Prelude.{All, OnErr, nat_lt, slice_index_or};
ghost use Rattle.ats_num.specs.Failure.{IsDue};
ghost use Rattle.ats_num.specs.Places.{place_of};
ghost use Rattle.ats_streams.specs.Branches.{leg_at, legs_of, routes_of};
ghost use Rattle.ats_streams.specs.Path.{IsPath};
ghost use Rattle.ats_streams.specs.Rules.{CoversLongest};
ghost use Rattle.ats_streams.specs.Stream.{DeclaredStream, IsClass, with_burst};
ghost use Rattle.ats_streams.specs.declared.path.TheConstants.{MAX_PORTS};
ghost use Rattle.ats_network.specs.Listeners.{station_of};
ghost use Rattle.ats_network.specs.Network.{HasOneListener, HasShortPath, HasShortRoutes, IsMostPorts, IsNetwork};
ghost use Rattle.ats_network.specs.Network.{network_within, senders_of, names_of, ports_together};
ghost use Rattle.ats_network.specs.Path.{IsTree, IsValidPath};
ghost use Rattle.ats_network.specs.Class.{class_at};
ghost use Rattle.ats_network.specs.Senders.{IsSender, sender_at};
ghost use Rattle.ats_network.specs.SenderView.{sender_of, is_stream};
ghost use Rattle.ats_network.specs.Residence.{residence_after, leads_to_station};
ghost use Rattle.ats_network.specs.Pushes.{with_stream, with_flow, place_identified, is_identity_taken};
ghost use Rattle.ats_network.specs.Pushes.{is_beyond, is_full, stream_push_fault, flow_push_fault};
ghost use Rattle.ats_network.specs.Rates.{HasRates};
ghost use Rattle.ats_network.specs.Edits.{IsLess, no_stream, with_burst_at, with_class_at, stream_named, without_named};

use crate::fault::PushFault;
use crate::flow_table::FlowTable;
use crate::paths::{is_valid_path, station_of};
use crate::rates::is_overrated;
use crate::sender::Sender;
use crate::stream_table::StreamTable;
use ats_num::{Failure, Name};
use ats_streams::{Flow, Route, Stream};
use ats_topology::{Kind, Topology};
use std::alloc::Global;
use std::marker::Model;

/// The most streams of a network.
pub const MAX_STREAMS: usize = 4096;

/// The most flows of a network.
pub const MAX_FLOWS: usize = 4096;

/// The most ports of all streams of a network, counted together.
pub const MAX_PORTS_TOGETHER: usize = 65_536;

/// A network: nodes and links with their ports, and the streams and flows that are declared over
/// them. Each flow has a valid path, the legs of each stream make a tree, each has a name of its own, and no two
/// streams declare one destination address and VLAN identifier. The streams in their order and then the flows in
/// theirs are the senders, numbered from 0. No route has more ports than the network's greatest number of ports of a
/// route, which is 16 or 64. Contracts see the topology, this number and the two lists.
#[derive(Drop)]
pub struct Network {
    shape: Topology,
    most_ports: u32,
    stream_table: StreamTable,
    flow_table: FlowTable,
}

impl Model for Network {
    ghost use Rattle.ats_network.specs.Network.{DeclaredNetwork, IsNetwork, network_within};

    ghost Value = { DeclaredNetwork };

    ghost view = { λ n. network_within n.shape n.most_ports n.stream_table n.flow_table };

    ghost invariant = { λ n. IsNetwork (network_within n.shape n.most_ports n.stream_table n.flow_table) };
}

impl Network {
    /// The network of these nodes and links, without streams and flows, whose routes may have so many ports: 16 or 64.
    pub fn new(alloc: Global, topology: Topology, most_ports: u32) -> Self
        requires { IsMostPorts most_ports }
        ensures { result ≡ network_within topology most_ports [] [] }
    {
        let _ports = topology.ports(); // for what a topology keeps
        Network {
            shape: topology,
            most_ports,
            stream_table: StreamTable::new(alloc),
            flow_table: FlowTable::new(alloc),
        }
    }

    /// The nodes, links and ports.
    pub fn topology(&self) -> &Topology
        ensures value { result.now ≡ self.now.topology }
        ensures rules { IsNetwork self.now }
    {
        &self.shape
    }

    /// The most ports that a route may have: 16 or 64.
    pub fn most_ports(&self) -> u32
        ensures value { result ≡ self.now.most_ports }
        ensures most { result ≤ MAX_PORTS }
        ensures rules { IsNetwork self.now }
    {
        self.most_ports
    }

    /// The streams, in order.
    pub fn streams(&self) -> &[Stream]
        ensures value { result.now ≡ self.now.streams }
        ensures rules { IsNetwork self.now }
    {
        self.stream_table.as_slice()
    }

    /// The flows, in order.
    pub fn flows(&self) -> &[Flow]
        ensures value { result.now ≡ self.now.flows }
        ensures rules { IsNetwork self.now }
    {
        self.flow_table.as_slice()
    }

    /// The number of senders: of streams and flows.
    pub fn senders(&self) -> u32
        ensures value { result ≡ length (senders_of self.now) }
        ensures rules { IsNetwork self.now }
    {
        (self.stream_table.as_slice().len() + self.flow_table.as_slice().len()) as u32
    }

    /// The number of the sender with this name; `None` exactly where no stream and no flow has it.
    pub fn sender_named(&self, name: &Name) -> Option<u32>
        ensures number { result ≡ place_of name.now (names_of (senders_of self.now)) }
        ensures within { IfSome result (λ n. n < length (senders_of self.now)) }
        ensures rules { IsNetwork self.now }
    {
        if let Some(stream) = self.stream_table.place(name) {
            return Some(stream);
        }
        let flow = self.flow_table.place(name)?;
        Some(self.stream_table.as_slice().len() as u32 + flow)
    }

    /// The number of the stream with this destination address and VLAN identifier; `None` exactly
    /// where no stream declares them.
    pub fn stream_identified(&self, address: u64, vlan: u16) -> Option<u32>
        ensures number { result ≡ place_identified (address, vlan) self.now.streams }
        ensures rules { IsNetwork self.now }
    {
        self.stream_table.identified(address, vlan)
    }

    /// The stream or the flow with a sender's number: a stream exactly where the number is below that of the streams.
    pub fn sender(&self, sender: u32) -> Sender<'_>
        requires { sender < length (senders_of self.now) }
        ensures value { sender_of result ≡ sender_at self.now sender }
        ensures kind { is_stream result ≡ nat_lt sender (length self.now.streams) }
        ensures sender { IsSender self.now.topology (sender_at self.now sender) }
        ensures rules { IsNetwork self.now }
    {
        let streams = self.stream_table.as_slice();
        let place = sender as usize;
        if place < streams.len() {
            return Sender::Stream(&streams[place]);
        }
        Sender::Flow(&self.flow_table.as_slice()[place - streams.len()])
    }

    /// The numbers of a sender's ports: of its trunk, and then of each branch.
    pub fn sender_ports(&self, sender: u32) -> &[u32]
        requires { sender < length (senders_of self.now) }
        ensures value { result.now ≡ (sender_at self.now sender).ports }
        ensures rules { IsNetwork self.now }
    {
        self.sender(sender).ports()
    }

    /// The number of a sender's legs, and of its listeners: of its trunk and its branches.
    pub fn sender_legs(&self, sender: u32) -> u32
        requires { sender < length (senders_of self.now) }
        ensures value { result
            ≡ length (legs_of (sender_at self.now sender).ports (sender_at self.now sender).branches) }
        ensures rules { IsNetwork self.now }
    {
        self.sender(sender).legs()
    }

    /// The numbers of the ports of one leg of a sender, counted from 0: of its trunk, and then of each branch.
    pub fn sender_leg(&self, sender: u32, leg: u32) -> &[u32]
        requires sender { sender < length (senders_of self.now) }
        requires leg { leg ≤ length (sender_at self.now sender).branches }
        ensures value { result.now
            ≡ leg_at (legs_of (sender_at self.now sender).ports (sender_at self.now sender).branches) leg }
        ensures rules { IsNetwork self.now }
    {
        self.sender(sender).leg(leg)
    }

    /// The numbers of the ports from a sender's talker to the listener of one leg, counted from 0. It takes no memory.
    pub fn sender_route(&self, sender: u32, leg: u32) -> Route
        requires sender { sender < length (senders_of self.now) }
        requires leg { leg ≤ length (sender_at self.now sender).branches }
        ensures value { result
            ≡ leg_at (routes_of (sender_at self.now sender).ports (sender_at self.now sender).branches) leg }
        ensures path { IsPath result }
        ensures rules { IsNetwork self.now }
    {
        self.sender(sender).route(leg)
    }

    /// A sender's class at one of its ports, by the port's place among them, counted from 0: 1 to 7 for a stream, 0 for
    /// a flow. No port is there twice, so it is the sender's class at this port.
    pub fn sender_class(&self, sender: u32, place: u32) -> u8
        requires { (sender < length (senders_of self.now)) × (place < length (sender_at self.now sender).ports) }
        ensures value { result ≡ slice_index_or (sender_at self.now sender).classes place 0 }
        ensures port { result ≡ class_at (sender_at self.now sender)
            (slice_index_or (sender_at self.now sender).ports place 0) }
        ensures rules { IsNetwork self.now }
    {
        self.sender(sender).class_at_place(place)
    }

    /// A sender's name.
    pub fn sender_name(&self, sender: u32) -> Name
        requires { sender < length (senders_of self.now) }
        ensures value { result ≡ (sender_at self.now sender).name }
        ensures rules { IsNetwork self.now }
    {
        self.sender(sender).name()
    }

    /// The name of the listener to which one leg of a stream leads, counted from 0: of the node at which it ends.
    pub fn listener(&self, stream: u32, leg: u32) -> Name
        requires stream { stream < length self.now.streams }
        requires leg { leg ≤ length (slice_index_or self.now.streams stream no_stream).branches }
        ensures value { result ≡ station_of self.now.topology
            (leg_at (routes_of (slice_index_or self.now.streams stream no_stream).ports
            (slice_index_or self.now.streams stream no_stream).branches) leg) }
        ensures rules { IsNetwork self.now }
    {
        let route = self.streams()[stream as usize].route(leg);
        station_of(&self.shape, route.as_slice())
    }

    /// Whether each stream has one listener: none has a branch.
    pub fn has_one_listener(&self) -> bool
        ensures value { IsTrue result ↔ HasOneListener self.now }
        ensures rules { IsNetwork self.now }
    {
        have_one_listener(self.streams())
    }

    /// Whether a stream or a flow of this network may have these ports as its path: there is one at
    /// least, each exists and leaves the node to which the one before leads, and no node occurs
    /// twice. A path may be of any length here. It takes no memory.
    pub fn valid_path(&self, path: &[u32]) -> bool
        ensures valid { IsTrue result ↔ IsValidPath self.now.topology path.now }
        ensures rules { IsNetwork self.now }
    {
        is_valid_path(&self.shape, path)
    }

    /// The maximum residence time, in nanoseconds, of the bridge that a port leads to: 0 to
    /// 1,000,000,000. `None` exactly where the port leads to a station.
    pub fn residence(&self, port: u32) -> Option<u32>
        requires { port < length self.now.topology.ports }
        ensures value { result ≡ residence_after self.now.topology port }
        ensures none { IsNone result ↔ IsTrue (leads_to_station self.now.topology port) }
        ensures most { IfSome result (λ ns. ns ≤ 1000000000) }
        ensures rules { IsNetwork self.now }
    {
        let node = self.shape.ports()[port as usize].to;
        match self.shape.nodes()[node as usize].kind {
            Kind::Station => None,
            Kind::Bridge { residence_ns, .. } => Some(residence_ns),
        }
    }

    /// Adds a stream whose legs make a tree, and whose routes have at most `most_ports` ports, as the last of the
    /// streams, of which there may be 4096, with 65,536 ports together. All else stays.
    ///
    /// # Errors
    ///
    /// The network stays as it was. The first of these, in this order: `NameTaken` exactly where a
    /// stream or a flow has the name; `IdentityTaken` exactly where a stream has the same
    /// destination address and VLAN identifier; `Limit` exactly where 4096 streams are there, or
    /// where their ports and those of the new one are more than 65,536, or where, by the clocks on
    /// its way, a rate or a burst of the new one at one of its ports is over the limits of a
    /// scheduler, 100,000,000,000 bits per second and 1,000,000,000 bits; `Failure::NoMemory` where
    /// memory runs out.
    pub fn push_stream(&mut self, stream: Stream) -> Result<(), Failure<PushFault>>
        requires tree { IsTree self.old.topology stream.ports stream.branches }
        requires short { HasShortRoutes self.old.most_ports stream }
        ensures ok { OnOk result (self.new ≡ with_stream self.old stream) }
        ensures sound { OnOk result (stream_push_fault self.old stream ≡ None) }
        ensures fault { IfErr result (λ fault. IsDue fault (stream_push_fault self.old stream)) }
        ensures memory { IsErrOf result Failure.NoMemory → stream_push_fault self.old stream ≡ None }
        ensures err { OnErr result (self.new ≡ self.old) }
    {
        if self.sender_named(&stream.name()).is_some() {
            return Err(Failure::Fault(PushFault::NameTaken));
        }
        if self.is_identity_taken(stream.identity()) {
            return Err(Failure::Fault(PushFault::IdentityTaken));
        }
        if self.is_beyond(&stream) {
            return Err(Failure::Fault(PushFault::Limit));
        }
        self.stream_table.push(stream)?;
        Ok(())
    }

    /// Sets a stream's class at each of its ports. All else stays, and it takes no memory.
    pub fn set_class(&mut self, stream: u32, class: u8)
        requires stream { stream < length self.old.streams }
        requires class { IsClass class }
        ensures { self.new ≡ with_class_at self.old stream class }
    {
        self.stream_table.set_class(stream, class);
    }

    /// Sets a stream's committed burst, in bits: at least the wire bits of its longest frame, and so few that the
    /// bursts that come of it at the stream's ports are at most 1,000,000,000 (IEEE Std 802.1Qcr, CommittedBurstSize),
    /// as they are where it is no more than the stream's burst. All else stays, and it takes no memory.
    pub fn set_burst(&mut self, stream: u32, burst_bits: u64)
        requires stream { stream < length self.old.streams }
        requires covers { CoversLongest burst_bits (slice_index_or self.old.streams stream no_stream).max_octets }
        requires rates { HasRates self.old.topology
            (with_burst (slice_index_or self.old.streams stream no_stream) burst_bits) }
        ensures { self.new ≡ with_burst_at self.old stream burst_bits }
    {
        self.stream_table.set_burst(stream, burst_bits);
    }

    /// Takes out the stream with this name and gives it back; `None` exactly where no stream has the
    /// name, also where a flow has it. The others keep their order, so each sender behind it has
    /// from now on a number less by one. All else stays. It takes no memory.
    pub fn take_stream(&mut self, name: &Name) -> Option<Stream>
        ensures result { result ≡ stream_named self.old.streams name.now }
        ensures network { self.new ≡ without_named self.old name.now }
        ensures less { IfSome result (IsLess self.old.streams self.new.streams) }
        ensures rules { IsNetwork self.old }
    {
        self.stream_table.take(name)
    }

    /// Adds a flow with a valid path, of at most `most_ports` ports, as the last of the flows, of which there may be
    /// 4096. All else stays.
    ///
    /// # Errors
    ///
    /// The network stays as it was. The first of these, in this order: `NameTaken` exactly where a
    /// stream or a flow has the name; `Limit` exactly where 4096 flows are there;
    /// `Failure::NoMemory` where memory runs out.
    pub fn push_flow(&mut self, flow: Flow) -> Result<(), Failure<PushFault>>
        requires valid { IsValidPath self.old.topology flow.path }
        requires short { HasShortPath self.old.most_ports flow }
        ensures ok { OnOk result (self.new ≡ with_flow self.old flow) }
        ensures sound { OnOk result (flow_push_fault self.old flow ≡ None) }
        ensures fault { IfErr result (λ fault. IsDue fault (flow_push_fault self.old flow)) }
        ensures memory { IsErrOf result Failure.NoMemory → flow_push_fault self.old flow ≡ None }
        ensures err { OnErr result (self.new ≡ self.old) }
    {
        if self.sender_named(&flow.name()).is_some() {
            return Err(Failure::Fault(PushFault::NameTaken));
        }
        if self.flows().len() >= MAX_FLOWS {
            return Err(Failure::Fault(PushFault::Limit));
        }
        self.flow_table.push(flow)?;
        Ok(())
    }

    // Whether there is no room for one more stream with these ports.
    fn is_full(&self, ports: &[u32]) -> bool
        ensures { result ≡ is_full self.now.streams ports.now }
    {
        let _rules = self.streams(); // for what a network keeps
        let streams = self.stream_table.as_slice();
        streams.len() >= MAX_STREAMS || ports.len() > MAX_PORTS_TOGETHER - self.stream_table.ports()
    }

    // Whether a stream is over a limit: there is no room for it, or a rate or a burst of it at one of its ports is over
    // those of a scheduler.
    fn is_beyond(&self, stream: &Stream) -> bool
        ensures { result ≡ is_beyond self.now stream.now }
    {
        self.is_full(stream.ports()) || is_overrated(&self.shape, stream)
    }

    // Whether an identity is given, and one of the streams has it.
    fn is_identity_taken(&self, identity: Option<(u64, u16)>) -> bool
        ensures { result ≡ is_identity_taken self.now.streams identity }
    {
        match identity {
            Some((address, vlan)) => self.stream_identified(address, vlan).is_some(),
            None => false,
        }
    }
}

// Whether no stream has a branch.
fn have_one_listener(streams: &[Stream]) -> bool
    ensures { IsTrue result ↔ All (λ (s : DeclaredStream). s.branches ≡ []) streams.now }
{
    for stream in streams {
        if stream.legs() != 1 {
            return false;
        }
    }
    true
}
