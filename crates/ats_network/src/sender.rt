//! A sender: a stream or a flow.

ghost use Rattle.std.specs.Prelude.{◌≡◌, ◌<◌, ◌≤◌, length, slice_index_or};
ghost use Rattle.ats_streams.specs.Branches.{leg_at, legs_of, routes_of};
ghost use Rattle.ats_streams.specs.Path.{IsPath};
ghost use Rattle.ats_streams.specs.Traffic.{is_declared_size};
ghost use Rattle.ats_network.specs.Sender.{declared_of};
ghost use Rattle.ats_network.specs.SenderView.{sender_of, is_stream, deadline_of};

use ats_num::wire::MIN_OCTETS;
use ats_num::{Name, Ps};
use ats_streams::{Flow, Route, Stream};

/// One of the senders of a network.
#[derive(Clone, Copy)]
pub enum Sender<'a> {
    /// A stream.
    Stream(&'a Stream),
    /// A flow.
    Flow(&'a Flow),
}

impl<'a> Sender<'a> {
    /// Whether it is a stream.
    pub fn is_stream(&self) -> bool
        ensures { result ≡ is_stream self.now }
    {
        match self {
            Sender::Stream(_) => true,
            Sender::Flow(_) => false,
        }
    }

    /// Its name.
    pub fn name(&self) -> Name
        ensures { result ≡ (sender_of self.now).name }
    {
        match self {
            Sender::Stream(stream) => stream.name(),
            Sender::Flow(flow) => flow.name(),
        }
    }

    /// The numbers of its ports: of a stream those of the trunk, and then those of each branch; of a flow those of its
    /// path.
    pub fn ports(&self) -> &'a [u32]
        ensures { result.now ≡ (sender_of self.now).ports }
    {
        match self {
            Sender::Stream(stream) => stream.ports(),
            Sender::Flow(flow) => flow.path(),
        }
    }

    /// The number of its legs, and of its listeners: of its trunk and its branches. A flow has one.
    pub fn legs(&self) -> u32
        ensures { result ≡ length (legs_of (sender_of self.now).ports (sender_of self.now).branches) }
    {
        match self {
            Sender::Stream(stream) => stream.legs(),
            Sender::Flow(_) => 1,
        }
    }

    /// The numbers of the ports of one leg, counted from 0: of the trunk, and then of each branch.
    pub fn leg(&self, leg: u32) -> &'a [u32]
        requires { leg ≤ length (sender_of self.now).branches }
        ensures { result.now ≡ leg_at (legs_of (sender_of self.now).ports (sender_of self.now).branches) leg }
    {
        match self {
            Sender::Stream(stream) => stream.leg(leg),
            Sender::Flow(flow) => flow.path(),
        }
    }

    /// The numbers of the ports from the talker to the listener of one leg, counted from 0. It takes no memory.
    pub fn route(&self, leg: u32) -> Route
        requires { leg ≤ length (sender_of self.now).branches }
        ensures value { result ≡ leg_at (routes_of (sender_of self.now).ports (sender_of self.now).branches) leg }
        ensures path { IsPath result }
    {
        match self {
            Sender::Stream(stream) => stream.route(leg),
            Sender::Flow(flow) => Route::of(flow.path()),
        }
    }

    /// Its class at one of its ports, by the port's place among them, counted from 0: 1 to 7 for a stream, 0 for a
    /// flow.
    pub fn class_at_place(&self, place: u32) -> u8
        requires { place < length (sender_of self.now).ports }
        ensures { result ≡ slice_index_or (sender_of self.now).classes place 0 }
    {
        match self {
            Sender::Stream(stream) => stream.classes()[place as usize],
            Sender::Flow(_) => 0,
        }
    }

    /// Whether it declares frames of so many octets; a flow does from 64 on.
    pub fn allows(&self, octets: u32) -> bool
        ensures { result ≡ is_declared_size (declared_of (sender_of self.now)) octets }
    {
        match self {
            Sender::Stream(stream) => stream.declared().allows(octets),
            Sender::Flow(flow) => octets >= MIN_OCTETS && octets <= flow.max_octets(),
        }
    }

    /// A stream's deadline from release to its listener; `None` exactly for a flow.
    pub fn deadline(&self) -> Option<Ps>
        ensures { result ≡ deadline_of self.now }
    {
        match self {
            Sender::Stream(stream) => Some(stream.deadline()),
            Sender::Flow(_) => None,
        }
    }
}
