//! What the tables of a network file declare.

ghost use Rattle.std.specs.Prelude.{◌≡◌, IfOk, Result};
ghost use Rattle.ats_num.specs.Failure.{Gives, GivesSeen};
ghost use Rattle.ats_network_table.specs.Walk.{Entry};
ghost use Rattle.ats_network_table.specs.SectionView.{entry_of};
ghost use Rattle.ats_network_table.specs.declared.fault.DocumentFault.{DocumentFault};

use ats_network_table::{DocumentFault, Key, Section};
use ats_num::{Failure, Name};
use std::alloc::Global;
use std::marker::Model;

/// What can be read from one table of a file.
pub(crate) trait FromSection: Drop {
    // What stands in a table, or its first fault.
    ghost reads: { Entry → Result Self DocumentFault };

    /// What stands in a table, or its first fault: the first missing key, then an unknown key, then
    /// the first key of the wrong kind.
    fn read(alloc: Global, section: &Section) -> Result<Self, Failure<DocumentFault>>
        ensures { Gives result (reads (entry_of section.now)) };
}

/// A station.
#[derive(Clone, Copy)]
pub struct StationEntry {
    /// Its name.
    pub name: Name,
}

impl FromSection for StationEntry {
    ghost use Rattle.ats_network_toml.specs.Entries.{station_in};

    ghost reads = { station_in };

    fn read(_alloc: Global, section: &Section) -> Result<Self, Failure<DocumentFault>> {
        section.formed()?;
        let name = section.name(Key::Name)?;
        Ok(StationEntry { name })
    }
}

/// A bridge.
#[derive(Clone, Copy)]
pub struct BridgeEntry {
    /// Its name.
    pub name: Name,
    /// How long it processes a frame at least, in nanoseconds.
    pub processing_min_ns: u32,
    /// How long it processes a frame at most, in nanoseconds: whether it is at least the least time is not judged here.
    pub processing_max_ns: u32,
    /// The maximum residence time of its groups of schedulers, in nanoseconds.
    pub residence_ns: u32,
    /// The greatest deviation of the clock of these groups, in parts in a million: its range is not judged here.
    pub clock_ppm: u32,
    /// The step of this clock, in picoseconds: its range is not judged here.
    pub clock_step_ps: u32,
}

impl FromSection for BridgeEntry {
    ghost use Rattle.ats_network_toml.specs.Entries.{bridge_in};

    ghost reads = { bridge_in };

    fn read(_alloc: Global, section: &Section) -> Result<Self, Failure<DocumentFault>> {
        section.formed()?;
        let name = section.name(Key::Name)?;
        let processing_min_ns = section.short(section.format().least_processing_key())?;
        let processing_max_ns = section.short(section.format().greatest_processing_key())?;
        let residence_ns = section.short(Key::ResidenceNs)?;
        let clock_ppm = section.clock(Key::ClockPpm)?;
        let clock_step_ps = section.clock(Key::ClockStepPs)?;
        Ok(BridgeEntry {
            name,
            processing_min_ns,
            processing_max_ns,
            residence_ns,
            clock_ppm,
            clock_step_ps,
        })
    }
}

/// A link between two nodes.
#[derive(Clone, Copy)]
pub struct LinkEntry {
    /// The name of the node at one end.
    pub a: Name,
    /// The name of the node at the other end.
    pub b: Name,
    /// Its rate in megabits per second.
    pub mbps: u32,
    /// Its propagation in nanoseconds.
    pub propagation_ns: u32,
}

impl FromSection for LinkEntry {
    ghost use Rattle.ats_network_toml.specs.Entries.{link_in};

    ghost reads = { link_in };

    fn read(_alloc: Global, section: &Section) -> Result<Self, Failure<DocumentFault>> {
        section.formed()?;
        let a = section.name(Key::A)?;
        let b = section.name(Key::B)?;
        let mbps = section.short(Key::Mbps)?;
        let propagation_ns = section.short(Key::PropagationNs)?;
        Ok(LinkEntry {
            a,
            b,
            mbps,
            propagation_ns,
        })
    }
}

/// How a flow goes through the network.
#[derive(Drop)]
pub enum Route {
    /// By these nodes, at least two, from talker to listener.
    Path(Vec<Name>),
    /// From this node to that one, by a path that is to be found.
    Ends(Name, Name),
}

impl Route {
    ghost use Rattle.ats_network_toml.specs.Document.{IsRoute};
    ghost use Rattle.ats_network_toml.specs.Entries.{route_at};
    ghost use Rattle.ats_network_toml.specs.Views.{route_view};

    // The way of a flow: its path, or its two ends.
    fn read(alloc: Global, section: &Section) -> Result<Self, Failure<DocumentFault>>
        ensures value { GivesSeen route_view result (route_at (entry_of section.now)) }
        ensures route { IfOk result (λ route. IsRoute (route_view route)) }
    {
        if section.has(Key::Path) {
            return Ok(Route::Path(section.path(alloc)?));
        }
        let from = section.name(Key::From)?;
        let to = section.name(Key::To)?;
        Ok(Route::Ends(from, to))
    }
}

/// How a stream goes through the network to each of its listeners, to the first one first.
#[derive(Drop)]
pub enum Routes {
    /// To each by these nodes, at least two, from talker to listener.
    Paths(Vec<Vec<Name>>),
    /// From this node to each of those, by paths that are to be found.
    Ends(Name, Vec<Name>),
}

impl Routes {
    ghost use Rattle.ats_network_toml.specs.Entries.{routes_at};
    ghost use Rattle.ats_network_toml.specs.Views.{routes_view};

    // The ways of a stream: its path, its paths, or its ends.
    fn read(alloc: Global, section: &Section) -> Result<Self, Failure<DocumentFault>>
        ensures { GivesSeen routes_view result (routes_at (entry_of section.now)) }
    {
        if section.has(Key::Path) {
            let path = section.path(alloc)?;
            return Ok(Routes::Paths(vec![in alloc; path]?));
        }
        if section.has_paths() {
            return Ok(Routes::Paths(section.paths(alloc)?));
        }
        let from = section.name(Key::From)?;
        let listeners = section.listeners(alloc)?;
        Ok(Routes::Ends(from, listeners))
    }
}

/// A stream. Contracts see its routes and its classes as lists.
#[derive(Drop)]
pub struct StreamEntry {
    /// Its name.
    pub name: Name,
    /// Its ways through the network, one to each listener.
    pub routes: Routes,
    /// Its traffic class, or its classes at its ports, each 0 to 2^63 - 1: whether they are classes, one or as many as
    /// it has ports, is not judged here, nor the range of the other numbers.
    pub classes: Vec<u64>,
    /// Its committed rate in bits per second.
    pub rate_bps: u64,
    /// Its burst in bits.
    pub burst_bits: u64,
    /// The least octets of its frames.
    pub min_octets: u64,
    /// The most octets of its frames.
    pub max_octets: u64,
    /// Its deadline in nanoseconds; 1,000,000,000 where the file gives none.
    pub deadline_ns: u64,
    /// Its destination address, of 48 bits, and its VLAN identifier, 1 to 4094, where the file gives them: null stream
    /// identification of IEEE Std 802.1CB.
    pub identity: Option<(u64, u16)>,
}

impl Model for StreamEntry {
    ghost use Rattle.ats_network_toml.specs.Document.{DeclaredStream, IsStreamEntry};
    ghost use Rattle.ats_network_toml.specs.Views.{routes_view};

    ghost Value = { DeclaredStream };

    ghost view = { λ s. record {
      name = s.name;
      routes = routes_view s.routes;
      classes = s.classes.items;
      rate_bps = s.rate_bps;
      burst_bits = s.burst_bits;
      min_octets = s.min_octets;
      max_octets = s.max_octets;
      deadline_ns = s.deadline_ns;
      identity = s.identity;
    } };

    ghost invariant = { λ s. IsStreamEntry (record {
      name = s.name;
      routes = routes_view s.routes;
      classes = s.classes.items;
      rate_bps = s.rate_bps;
      burst_bits = s.burst_bits;
      min_octets = s.min_octets;
      max_octets = s.max_octets;
      deadline_ns = s.deadline_ns;
      identity = s.identity;
    }) };
}

impl FromSection for StreamEntry {
    ghost use Rattle.ats_network_toml.specs.Entries.{stream_in};

    ghost reads = { stream_in };

    fn read(alloc: Global, section: &Section) -> Result<Self, Failure<DocumentFault>> {
        section.formed()?;
        let name = section.name(Key::Name)?;
        let routes = Routes::read(alloc, section)?;
        let classes = section.classes(alloc)?;
        let numbers = StreamNumbers::read(section)?;
        let identity = section.identity()?;
        Ok(StreamEntry {
            name,
            routes,
            classes,
            rate_bps: numbers.rate_bps,
            burst_bits: numbers.burst_bits,
            min_octets: numbers.min_octets,
            max_octets: numbers.max_octets,
            deadline_ns: numbers.deadline_ns,
            identity,
        })
    }
}

/// The numbers of a stream.
#[derive(Clone, Copy)]
pub struct StreamNumbers {
    rate_bps: u64,
    burst_bits: u64,
    min_octets: u64,
    max_octets: u64,
    deadline_ns: u64,
}

impl StreamNumbers {
    ghost use Rattle.ats_network_toml.specs.Entries.{numbers_in};

    // The numbers of a stream's table, or its first fault in them.
    fn read(section: &Section) -> Result<Self, DocumentFault>
        ensures { result ≡ numbers_in (entry_of section.now) }
    {
        let rate_bps = section.long(Key::RateBps)?;
        let burst_bits = section.long(Key::BurstBits)?;
        let min_octets = section.long(Key::MinOctets)?;
        let max_octets = section.long(Key::MaxOctets)?;
        let deadline_ns = section.deadline_ns()?;
        Ok(StreamNumbers {
            rate_bps,
            burst_bits,
            min_octets,
            max_octets,
            deadline_ns,
        })
    }
}

/// A stream for each port of the network, of which each goes along that port alone.
#[derive(Drop)]
pub struct LinkLocalEntry {
    /// Its name, of at most 26 bytes: that of the stream at a port has `-` and the port's number behind it.
    pub name: Name,
    /// Its traffic class, 0 to 2^63 - 1: whether it is one is not judged here, nor the range of the other numbers.
    pub class: u64,
    /// Its committed rate in bits per second.
    pub rate_bps: u64,
    /// Its burst in bits.
    pub burst_bits: u64,
    /// The least octets of its frames.
    pub min_octets: u64,
    /// The most octets of its frames.
    pub max_octets: u64,
    /// Its deadline in nanoseconds; 1,000,000,000 where the file gives none.
    pub deadline_ns: u64,
}

impl Model for LinkLocalEntry {
    ghost use Rattle.ats_network_toml.specs.Document.{DeclaredLinkLocal, IsShortName};

    ghost Value = { DeclaredLinkLocal };

    ghost view = { λ s. record {
      name = s.name;
      class = s.class;
      rate_bps = s.rate_bps;
      burst_bits = s.burst_bits;
      min_octets = s.min_octets;
      max_octets = s.max_octets;
      deadline_ns = s.deadline_ns;
    } };

    ghost invariant = { λ s. IsShortName s.name };
}

impl FromSection for LinkLocalEntry {
    ghost use Rattle.ats_network_toml.specs.Entries.{link_local_in};

    ghost reads = { link_local_in };

    fn read(_alloc: Global, section: &Section) -> Result<Self, Failure<DocumentFault>> {
        section.formed()?;
        let name = section.short_name(Key::Name)?;
        let class = section.long(Key::Class)?;
        let numbers = StreamNumbers::read(section)?;
        Ok(LinkLocalEntry {
            name,
            class,
            rate_bps: numbers.rate_bps,
            burst_bits: numbers.burst_bits,
            min_octets: numbers.min_octets,
            max_octets: numbers.max_octets,
            deadline_ns: numbers.deadline_ns,
        })
    }
}

/// A best-effort flow for each port of the network, of which each goes along that port alone.
#[derive(Drop)]
pub struct LinkLocalFlowEntry {
    /// Its name, of at most 26 bytes: that of the flow at a port has `-` and the port's number behind it.
    pub name: Name,
    /// The most octets of its frames.
    pub max_octets: u64,
}

impl Model for LinkLocalFlowEntry {
    ghost use Rattle.ats_network_toml.specs.Document.{DeclaredLinkLocalFlow, IsShortName};

    ghost Value = { DeclaredLinkLocalFlow };

    ghost view = { λ f. record { name = f.name; max_octets = f.max_octets } };

    ghost invariant = { λ f. IsShortName f.name };
}

impl FromSection for LinkLocalFlowEntry {
    ghost use Rattle.ats_network_toml.specs.Entries.{link_local_flow_in};

    ghost reads = { link_local_flow_in };

    fn read(_alloc: Global, section: &Section) -> Result<Self, Failure<DocumentFault>> {
        section.formed()?;
        let name = section.short_name(Key::Name)?;
        let max_octets = section.long(Key::MaxOctets)?;
        Ok(LinkLocalFlowEntry { name, max_octets })
    }
}

/// A best-effort flow. Contracts see its path as a list.
#[derive(Drop)]
pub struct FlowEntry {
    /// Its name.
    pub name: Name,
    /// Its way through the network.
    pub route: Route,
    /// The most octets of its frames.
    pub max_octets: u64,
}

impl Model for FlowEntry {
    ghost use Rattle.ats_network_toml.specs.Document.{DeclaredFlow, IsRoute};
    ghost use Rattle.ats_network_toml.specs.Views.{route_view};

    ghost Value = { DeclaredFlow };

    ghost view = { λ f. record { name = f.name; route = route_view f.route; max_octets = f.max_octets } };

    ghost invariant = { λ f. IsRoute (route_view f.route) };
}

impl FromSection for FlowEntry {
    ghost use Rattle.ats_network_toml.specs.Entries.{flow_in};

    ghost reads = { flow_in };

    fn read(alloc: Global, section: &Section) -> Result<Self, Failure<DocumentFault>> {
        section.formed()?;
        let name = section.name(Key::Name)?;
        let route = Route::read(alloc, section)?;
        let max_octets = section.long(Key::MaxOctets)?;
        Ok(FlowEntry {
            name,
            route,
            max_octets,
        })
    }
}
