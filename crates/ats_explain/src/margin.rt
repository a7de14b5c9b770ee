//! How close streams are to their deadlines, for each of their listeners.

ghost use Rattle.std.specs.Prelude.{◌≡◌, ◌-◌, ◌<◌, ◌++◌, length, slice_index_or, IfSome, IfOk, OnOk};
ghost use Rattle.std.specs.List.{position_from};
ghost use Rattle.ats_bound.specs.Least.{least_certificate};
ghost use Rattle.ats_network.specs.Edits.{no_stream};
ghost use Rattle.ats_explain.specs.Margins.{all_listeners, is_late, is_no_slacker, is_tightest, margins_of};
ghost use Rattle.ats_explain.specs.Numbers.{IsNumbered, stream_margins};

use ats_certificate::Certificate;
use ats_network::Network;
use ats_tally::Delays;
use std::alloc::{AllocError, Global};

/// How close a stream is to its deadline for one of its listeners, in picoseconds.
#[derive(Clone, Copy)]
pub struct Margin {
    /// The sum of its least bounds along the route to the listener.
    pub sum: u128,
    /// Its deadline.
    pub deadline: u128,
}

impl Margin {
    /// Whether the sum is over the deadline.
    pub fn is_late(&self) -> bool
        ensures { result ≡ is_late self.now }
    {
        self.deadline < self.sum
    }

    /// By how much the sum is over the deadline; 0 where it is not.
    pub fn late(&self) -> u128
        ensures { result ≡ self.now.sum - self.now.deadline }
    {
        self.sum.saturating_sub(self.deadline)
    }

    /// By how much the deadline is over the sum; 0 where it is not.
    pub fn slack(&self) -> u128
        ensures { result ≡ self.now.deadline - self.now.sum }
    {
        self.deadline.saturating_sub(self.sum)
    }

    // Whether this one has no more slack than another, where one that is late has the less the later it is.
    fn is_no_slacker(&self, other: &Margin) -> bool
        ensures { result ≡ is_no_slacker self.now other.now }
    {
        if self.late() == other.late() {
            self.slack() <= other.slack()
        } else {
            other.late() < self.late()
        }
    }
}

// For each listener, stream by stream, its margin by the least certificate.
pub(crate) fn margins_of(
    alloc: Global,
    network: &Network,
    certificate: &Certificate,
) -> Result<Vec<Margin>, AllocError>
    requires { certificate.now ≡ least_certificate network.now }
    ensures { IfOk result (λ margins. margins.items ≡ margins_of network.now) }
{
    let delays = Delays::new(alloc, network, certificate)?;
    let mut margins = Vec::with_capacity(alloc, delays.sums().len())?;
    for stream in 0..network.streams().len() as u32 {
        push_margins(&mut margins, &delays, stream)?;
    }
    Ok(margins)
}

// Adds the margin of each listener of a stream.
fn push_margins(margins: &mut Vec<Margin>, delays: &Delays, stream: u32) -> Result<(), AllocError>
    requires stream { stream < length delays.now.network.streams }
    requires least { delays.now.rows ≡ least_certificate delays.now.network }
    ensures { OnOk result (margins.new.items ≡ margins.old.items
        ++ stream_margins delays.now.network (slice_index_or delays.now.network.streams stream no_stream)) }
{
    let of = &delays.network().streams()[stream as usize];
    for leg in 0..of.legs() {
        margins.push(Margin {
            sum: delays.along(stream, leg),
            deadline: u128::from(of.deadline().0),
        })?;
    }
    Ok(())
}

// The stream and the leg of the listener with this number, counted from 0 stream by stream.
pub(crate) fn listener_of(network: &Network, number: usize) -> (u32, u32)
    requires { number < length (all_listeners network.now) }
    ensures { IsNumbered network.now number result.0 result.1 }
{
    let streams = network.streams();
    let mut left = number;
    let mut stream = 0;
    while left >= streams[stream].legs() as usize {
        left -= streams[stream].legs() as usize;
        stream += 1;
    }
    (stream as u32, left as u32)
}

// The place of the first of these margins that has the least slack.
pub(crate) fn tightest(margins: &[Margin]) -> Option<usize>
    ensures place { result ≡ position_from (is_tightest margins.now) 0 margins.now }
    ensures within { IfSome result (λ place. place < length margins.now) }
{
    if margins.is_empty() {
        return None;
    }
    let mut place = 0;
    for i in 1..margins.len() {
        if !margins[place].is_no_slacker(&margins[i]) {
            place = i;
        }
    }
    Some(place)
}
