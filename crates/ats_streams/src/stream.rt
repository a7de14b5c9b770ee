//! Declared streams.

ghost use Rattle.std.specs.Prelude.{◌≡◌, ◌↔◌, ◌*◌, ◌+◌, ◌-◌, ◌<◌, ◌≤◌, length, IsTrue, IsNone, IfOk, IfErr, OnOk, None};
ghost use Rattle.std.specs.Prelude.{All, not, slice_index_or};
ghost use Rattle.std.specs.List.{list_any};
ghost use Rattle.ats_num.specs.Failure.{IsDue};
ghost use Rattle.ats_num.specs.Rate.{IsRate};
ghost use Rattle.ats_num.specs.declared.time.TheConstants.{PS_PER_NS};
ghost use Rattle.ats_streams.specs.Rules.{CoversLongest, IsBurst, KeepsRules};
ghost use Rattle.ats_streams.specs.Path.{IsPath};
ghost use Rattle.ats_streams.specs.Branches.{AreBranches, AreShort, is_bad_route, leg_at, legs_of, no_branch};
ghost use Rattle.ats_streams.specs.Branches.{routes_of};
ghost use Rattle.ats_streams.specs.Stream.{IsDeadline, IsIdentity, MayIdentify, IsStream, branching_stream};
ghost use Rattle.ats_streams.specs.Stream.{IsClass, classes_for, with_burst, with_class, limit_fault, stream_fault};
ghost use Rattle.ats_streams.specs.Traffic.{IsRuled, traffic_of};

use crate::branch::{Branch, has_bad_route, leg_of};
use crate::classes::{are_bad_classes, classes_for};
use crate::fault::StreamFault;
use crate::path::MAX_PORTS;
use crate::route::{Route, route_of};
use crate::traffic::Declared;
use ats_num::time::PS_PER_NS;
use ats_num::{Failure, Name, Ps, Rate};
use std::alloc::Global;
use std::marker::Model;

/// The highest class of a stream.
pub const MAX_CLASS: u64 = 7;

/// The greatest deadline, in nanoseconds.
pub const MAX_DEADLINE_NS: u64 = 1_000_000_000;

/// The greatest VLAN identifier (IEEE Std 802.1Q).
pub const MAX_VLAN: u16 = 4094;

/// Whether the address has 48 bits and the VLAN identifier is 1 to 4094.
pub fn is_identity(address: u64, vlan: u16) -> bool
    ensures { IsTrue result ↔ IsIdentity address vlan }
{
    address < 1 << 48 && vlan >= 1 && vlan <= MAX_VLAN
}

/// A declared stream. It keeps the rules that `Stream::new` tests, and contracts see it as the
/// record of what it declares. What it holds stands in one place of its own, so that a list of streams moves one of
/// them at the cost of a pointer.
#[derive(Debug, Drop)]
pub struct Stream {
    held: Box<Held>,
}

// What a stream holds.
#[derive(Debug, Drop)]
struct Held {
    name: Name,
    ports: Vec<u32>,
    branches: Vec<Branch>,
    classes: Vec<u8>,
    declared: Declared,
    deadline_ns: u64,
    identity: Option<(u64, u16)>,
}

impl Model for Stream {
    ghost use Rattle.ats_streams.specs.Stream.{DeclaredStream, IsStream};
    ghost use Rattle.ats_streams.specs.StreamInside.{declared_in};

    ghost Value = { DeclaredStream };

    ghost view = { λ s. declared_in s.held.value };

    ghost invariant = { λ s. IsStream (declared_in s.held.value) };
}

impl Stream {
    /// The stream with this name, its ports, those of the trunk first and then those of each branch, its branches, its
    /// class at each port, its rate in bits per second, its burst in bits, its least and greatest octets counted with
    /// the frame check sequence, its deadline in nanoseconds, and the destination address and VLAN identifier of its
    /// frames, where they are declared. It holds exactly these. Of the classes, a single one stands for each port; else
    /// each port has its own, in the order of the ports.
    ///
    /// The ports of branches begin at places that ascend, each leg has a port, and each branch begins at a hop of an
    /// earlier leg that is not the first of a branch. An address that is given has 48 bits, and its VLAN identifier is
    /// 1 to 4094; `is_identity` tests it.
    ///
    /// # Errors
    ///
    /// The first of these, in this order: `BadClass` where a class is not 1 to 7, or where there are
    /// neither one class nor as many as there are ports; `BadRate` where the rate is not 1 to
    /// 100,000,000,000; `BadSizes` where the sizes are not `64 <= min_octets <= max_octets <= 2000`;
    /// `BurstBelowFrame` where the burst is below the wire bits of `max_octets`; `Limit` where the
    /// route to a listener has no port or more than 64, the burst is over 1,000,000,000, or the deadline is not 1 to
    /// 1,000,000,000. `Failure::NoMemory` where memory runs out.
    pub fn new(
        alloc: Global,
        name: Name,
        ports: Vec<u32>,
        branches: Vec<Branch>,
        classes: &[u64],
        rate_bps: u64,
        burst_bits: u64,
        min_octets: u64,
        max_octets: u64,
        deadline_ns: u64,
        identity: Option<(u64, u16)>,
    ) -> Result<Self, Failure<StreamFault>>
        requires branches { AreBranches ports.items branches.items }
        requires identity { MayIdentify identity }
        ensures value { IfOk result (λ stream. stream ≡ branching_stream name ports.items branches.items
            (classes_for (length ports.items) classes.now) rate_bps burst_bits min_octets max_octets deadline_ns
            identity) }
        ensures sound { OnOk result (stream_fault classes.now (branching_stream name ports.items branches.items
            (classes_for (length ports.items) classes.now) rate_bps burst_bits min_octets max_octets deadline_ns
            identity) ≡ None) }
        ensures fault { IfErr result (λ fault. IsDue fault (stream_fault classes.now (branching_stream name ports.items
            branches.items (classes_for (length ports.items) classes.now) rate_bps burst_bits min_octets max_octets
            deadline_ns identity))) }
        ensures rules { IfOk result IsStream }
    {
        if are_bad_classes(ports.len(), classes) {
            return Err(Failure::Fault(StreamFault::BadClass));
        }
        let declared = Declared::new(rate_bps, burst_bits, min_octets, max_octets)?;
        if let Some(fault) = limit_fault(&ports, &branches, deadline_ns) {
            return Err(Failure::Fault(fault));
        }
        let classes = classes_for(alloc, ports.len(), classes)?;
        let held = Box::new(
            alloc,
            Held {
                name,
                ports,
                branches,
                classes,
                declared,
                deadline_ns,
                identity,
            },
        )?;
        Ok(Stream { held })
    }

    /// The stream's name.
    pub fn name(&self) -> Name
        ensures { result ≡ self.now.name }
    {
        self.held.name
    }

    /// The numbers of its ports: those of the trunk, and then those of each branch. The clause `rules` tells all that a
    /// stream keeps.
    pub fn ports(&self) -> &[u32]
        ensures value { result.now ≡ self.now.ports }
        ensures rules { IsStream self.now }
    {
        self.held.ports.as_slice()
    }

    /// The number of its legs, and of its listeners: of the trunk and the branches.
    pub fn legs(&self) -> u32
        ensures value { result ≡ 1 + length self.now.branches }
        ensures listeners { result ≡ length (legs_of self.now.ports self.now.branches) }
        ensures rules { IsStream self.now }
    {
        self.held.branches.len() as u32 + 1
    }

    /// The numbers of the ports of one leg, counted from 0: of the trunk, and then of each branch.
    pub fn leg(&self, leg: u32) -> &[u32]
        requires { leg ≤ length self.now.branches }
        ensures value { result.now ≡ leg_at (legs_of self.now.ports self.now.branches) leg }
        ensures rules { IsStream self.now }
    {
        leg_of(&self.held.ports, &self.held.branches, leg as usize)
    }

    /// The numbers of the ports from the talker to the listener of one leg, counted from 0: those in front of the leg,
    /// and those of the leg. It takes no memory.
    pub fn route(&self, leg: u32) -> Route
        requires { leg ≤ length self.now.branches }
        ensures value { result ≡ leg_at (routes_of self.now.ports self.now.branches) leg }
        ensures path { IsPath result }
        ensures rules { IsStream self.now }
    {
        route_of(&self.held.ports, &self.held.branches, leg as usize)
    }

    /// Whether the route to each listener has at most so many ports, of which there are at most 64.
    pub fn has_short_routes(&self, most: u32) -> bool
        requires { most ≤ MAX_PORTS }
        ensures value { result ≡ not (list_any (is_bad_route most) (routes_of self.now.ports self.now.branches)) }
        ensures short { IsTrue result → AreShort most (routes_of self.now.ports self.now.branches) }
        ensures rules { IsStream self.now }
    {
        !has_bad_route(&self.held.ports, &self.held.branches, most as usize)
    }

    /// The branch that is a leg, 1 or more.
    pub fn branch(&self, leg: u32) -> Branch
        requires { (1 ≤ leg) × (leg ≤ length self.now.branches) }
        ensures value { result ≡ slice_index_or self.now.branches (leg - 1) no_branch }
        ensures rules { IsStream self.now }
    {
        self.held.branches[leg as usize - 1]
    }

    /// Its class at each of its ports, from 1 to 7, in the order of the ports.
    pub fn classes(&self) -> &[u8]
        ensures value { result.now ≡ self.now.classes }
        ensures rules { IsStream self.now }
    {
        self.held.classes.as_slice()
    }

    /// Its committed rate and burst, and the least and greatest octets of its frames.
    pub fn declared(&self) -> Declared
        ensures value { result ≡ traffic_of self.now }
        ensures rules { IsRuled result }
    {
        self.held.declared
    }

    /// Its committed rate.
    pub fn rate(&self) -> Rate
        ensures value { result ≡ self.now.rate }
        ensures rules { KeepsRules self.now.rate self.now.burst_bits self.now.min_octets self.now.max_octets }
    {
        self.held.declared.rate
    }

    /// Its committed burst, in bits.
    pub fn burst_bits(&self) -> u64
        ensures value { result ≡ self.now.burst_bits }
        ensures rules { KeepsRules self.now.rate self.now.burst_bits self.now.min_octets self.now.max_octets }
    {
        self.held.declared.burst_bits
    }

    /// The fewest octets of its frames, counted with the frame check sequence.
    pub fn min_octets(&self) -> u32
        ensures value { result ≡ self.now.min_octets }
        ensures rules { KeepsRules self.now.rate self.now.burst_bits self.now.min_octets self.now.max_octets }
    {
        self.held.declared.min_octets
    }

    /// The most octets of its frames, counted with the frame check sequence.
    pub fn max_octets(&self) -> u32
        ensures value { result ≡ self.now.max_octets }
        ensures rules { KeepsRules self.now.rate self.now.burst_bits self.now.min_octets self.now.max_octets }
    {
        self.held.declared.max_octets
    }

    /// Its deadline from release to its listener, in nanoseconds: 1 to 1,000,000,000.
    pub fn deadline_ns(&self) -> u64
        ensures value { result ≡ self.now.deadline_ns }
        ensures valid { IsDeadline self.now.deadline_ns }
    {
        self.held.deadline_ns
    }

    /// The same as a time, in picoseconds.
    pub fn deadline(&self) -> Ps
        ensures value { result.0 ≡ PS_PER_NS * self.now.deadline_ns }
        ensures valid { IsDeadline self.now.deadline_ns }
    {
        Ps(PS_PER_NS * self.held.deadline_ns)
    }

    /// The destination address, below `2^48`, and the VLAN identifier, 1 to 4094, of its frames,
    /// where they are declared.
    pub fn identity(&self) -> Option<(u64, u16)>
        ensures value { result ≡ self.now.identity }
        ensures valid { MayIdentify self.now.identity }
    {
        self.held.identity
    }

    /// Sets the class at each of its ports, from 1 to 7. All else stays, and it takes no memory.
    pub fn set_class(&mut self, class: u8)
        requires { IsClass class }
        ensures { self.new ≡ with_class self.old class }
    {
        self.held.classes.fill(class);
    }

    /// Sets the committed burst, in bits: at least the wire bits of the longest frame, and at most 1,000,000,000 (IEEE
    /// Std 802.1Qcr, CommittedBurstSize). All else stays, and it takes no memory.
    pub fn set_burst(&mut self, burst_bits: u64)
        requires covers { CoversLongest burst_bits self.old.max_octets }
        requires most { IsBurst burst_bits }
        ensures { self.new ≡ with_burst self.old burst_bits }
    {
        self.held.declared.burst_bits = burst_bits;
    }
}

fn limit_fault(ports: &[u32], branches: &[Branch], deadline_ns: u64) -> Option<StreamFault>
    requires { AreBranches ports.now branches.now }
    ensures fault { result ≡ limit_fault (routes_of ports.now branches.now) deadline_ns }
    ensures routes { IsNone result → All IsPath (routes_of ports.now branches.now) }
    ensures deadline { IsNone result → IsDeadline deadline_ns }
{
    if has_bad_route(ports, branches, MAX_PORTS) {
        return Some(StreamFault::Limit);
    }
    if deadline_ns < 1 || deadline_ns > MAX_DEADLINE_NS {
        return Some(StreamFault::Limit);
    }
    None
}
