//! An explanation of the least bounds of a network.

ghost use Rattle.std.specs.Prelude.{◌≡◌, ◌<◌, ◌≤◌, length, IfOk, IfErr, OnOk, IsTrue, None};
ghost use Rattle.std.specs.Prelude.{◌≢◌, slice_index_or, All, AllPairs};
ghost use Rattle.std.specs.Option.{option_map};
ghost use Rattle.ats_num.specs.Failure.{IsDue};
ghost use Rattle.ats_streams.specs.Branches.{leg_at, routes_of};
ghost use Rattle.ats_network.specs.Edits.{no_stream};
ghost use Rattle.ats_network.specs.Network.{IsNetwork};
ghost use Rattle.ats_certificate.specs.Form.{IsRow};
ghost use Rattle.ats_certificate.specs.PortSums.{is_used};
ghost use Rattle.ats_certificate.specs.Used.{places_of};
ghost use Rattle.ats_tally.specs.Reason.{first_some};
ghost use Rattle.ats_bound.specs.Least.{least_row};
ghost use Rattle.ats_bound.specs.Reason.{overload};
ghost use Rattle.ats_explain.specs.Parts.{parts_at, HopIsUsed};
ghost use Rattle.ats_explain.specs.Margins.{margin_on, margins_of, tightest_listener};
ghost use Rattle.ats_explain.specs.Numbers.{listeners_before};
ghost use Rattle.ats_explain.specs.Loads.{has_stream, port_load};
ghost use Rattle.ats_explain.specs.Totals.{late_count, over_among, over_count, tightest_with, totals_of};

use crate::loads::{load, uses};
use crate::margin::{Margin, listener_of, margins_of, tightest};
use crate::names::names_of;
use crate::parts::{Parts, stay_behind};
use crate::rows::places_of;
use crate::totals::{Tightest, Totals};
use ats_bound::least_rows;
use ats_certificate::{Certificate, Row};
use ats_class_table::PortClassTable;
use ats_network::Network;
use ats_num::{Failure, Name};
use ats_streams::Stream;
use ats_tally::{Reason, Tallies, listener_name};
use std::alloc::Global;
use std::marker::Model;

/// Why the least bounds of a network are as large as they are. Contracts see the network.
#[derive(Drop)]
pub struct Explanation<'a> {
    tallies: Tallies<'a>,
    certificate: Certificate,
    places: PortClassTable<usize>,
    names: PortClassTable<Option<Name>>,
    margin_list: Vec<Margin>,
}

impl<'a> Model for Explanation<'a> {
    ghost use Rattle.ats_network.specs.Network.{DeclaredNetwork};
    ghost use Rattle.ats_explain.specs.Table.{HoldsExplanation};

    ghost Value = { DeclaredNetwork };

    ghost view = { λ e. e.tallies };

    ghost invariant = { λ e. HoldsExplanation e.tallies e.certificate e.places e.names e.margin_list.items };
}

impl<'a> Explanation<'a> {
    /// An explanation of the least bounds of a network. It takes time and memory linear in the number of ports and the
    /// sum of the routes' lengths.
    ///
    /// # Errors
    ///
    /// The first port and class, in the order of a certificate's rows, whose rates are more than the link can carry,
    /// exactly where there is one: no bounds are to be explained there. `Failure::NoMemory` where memory runs out.
    pub fn new(alloc: Global, network: &'a Network) -> Result<Self, Failure<Reason>>
        ensures value { IfOk result (λ explanation. explanation ≡ network.now) }
        ensures carries { OnOk result (first_some (overload network.now) (places_of network.now) ≡ None) }
        ensures reason { IfErr result
            (λ answer. IsDue answer (first_some (overload network.now) (places_of network.now))) }
    {
        let tallies = Tallies::new(alloc, network)?;
        let certificate = least_rows(alloc, &tallies)?;
        let places = places_of(alloc, network, &certificate)?;
        let names = names_of(alloc, &tallies)?;
        let margin_list = margins_of(alloc, network, &certificate)?;
        Ok(Explanation {
            tallies,
            certificate,
            places,
            names,
            margin_list,
        })
    }

    /// The network.
    pub fn network(&self) -> &Network
        ensures value { result.now ≡ self.now }
        ensures rules { IsNetwork self.now }
    {
        self.tallies.network()
    }

    /// For each listener, stream by stream, the sum of the least bounds along the route there, and the deadline.
    pub fn margins(&self) -> &[Margin]
        ensures { result.now ≡ margins_of self.now }
    {
        self.margin_list.as_slice()
    }

    /// The margin of a stream's listener, that of one leg counted from 0, where so many listeners are those of the
    /// streams before it.
    pub fn margin(&self, before: usize, stream: u32, leg: u32) -> Margin
        requires before { before ≡ listeners_before self.now stream }
        requires stream { stream < length self.now.streams }
        requires leg { leg ≤ length (slice_index_or self.now.streams stream no_stream).branches }
        ensures { result ≡ margin_on self.now (slice_index_or self.now.streams stream no_stream)
            (leg_at (routes_of (slice_index_or self.now.streams stream no_stream).ports
            (slice_index_or self.now.streams stream no_stream).branches) leg) }
    {
        self.margins()[before + leg as usize]
    }

    /// The parts of the least bound of a port and a class that some stream uses there. They are found at once.
    pub fn parts(&self, port: u32, class: u8) -> Parts
        requires { IsTrue (is_used self.now port class) }
        ensures { result ≡ parts_at self.now port class }
    {
        let network = self.network();
        let row = self.row(port, class);
        Parts::of(
            &network.topology().ports()[port as usize],
            row,
            self.names.get(port, class),
            stay_behind(network, port, row.wait),
        )
    }

    // The least row of a port and a class.
    fn row(&self, port: u32, class: u8) -> &Row
        requires { IsTrue (is_used self.now port class) }
        ensures row { result.now ≡ least_row self.now (port, class) }
        ensures form { IsRow result.now }
        ensures bursts { result.now.bursts ≤ 8192000000000 }
    {
        &self.certificate.rows()[self.places.get(port, class)]
    }

    /// Whether some stream has the port.
    pub fn uses(&self, port: u32) -> bool
        requires { port < length self.now.topology.ports }
        ensures { result ≡ has_stream self.now port }
    {
        uses(&self.tallies, port)
    }

    /// The picoseconds of each second that the rates of the streams that have the port take, as it sees them.
    pub fn load(&self, port: u32) -> u128
        requires { port < length self.now.topology.ports }
        ensures { result ≡ port_load self.now port }
    {
        load(&self.tallies, port)
    }

    /// The number of streams, for how many listeners they are late, at how many hops a frame may have to stay longer
    /// than it may, and the first listener of the least slack.
    pub fn totals(&self) -> Totals
        ensures { result ≡ totals_of self.now }
    {
        let margins = self.margins();
        Totals {
            streams: self.network().streams().len(),
            late: margins.iter().filter(|margin| margin.is_late()).count(),
            over: self.over(),
            tightest: self.tightest(),
        }
    }

    // At how many hops of all streams a frame may have to stay longer than it may.
    fn over(&self) -> usize
        ensures { result ≡ over_count self.now }
    {
        let mut over = 0;
        for stream in self.network().streams() {
            over += self.over_along(stream);
        }
        over
    }

    // At how many hops of a stream.
    fn over_along(&self, stream: &Stream) -> usize
        requires used { All (HopIsUsed self.now stream.now) stream.now.ports }
        requires apart { AllPairs (λ p q. p ≢ q) stream.now.ports }
        ensures value { result ≡ over_among self.now stream.now stream.now.ports }
        ensures most { result ≤ length stream.now.ports }
    {
        let classes = stream.classes();
        let mut over = 0;
        for (hop, port) in stream.ports().iter().enumerate() {
            if self.parts(*port, classes[hop]).is_over() {
                over += 1;
            }
        }
        over
    }

    // The first listener of the least slack.
    fn tightest(&self) -> Option<Tightest>
        ensures { result ≡ option_map (tightest_with self.now) (tightest_listener self.now) }
    {
        let margins = self.margins();
        let place = tightest(margins)?;
        let network = self.network();
        let (stream, leg) = listener_of(network, place);
        Some(Tightest {
            name: network.streams()[stream as usize].name(),
            listener: listener_name(network, stream, leg),
            margin: margins[place],
        })
    }
}
