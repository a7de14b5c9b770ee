//! Totals of a network.

use crate::margin::Margin;
use ats_num::Name;

/// What is counted over all streams of a network.
#[derive(Clone, Copy)]
pub struct Totals {
    /// The number of streams.
    pub streams: usize,
    /// For how many listeners their streams are late.
    pub late: usize,
    /// At how many hops of all streams a frame may have to stay longer than it may.
    pub over: usize,
    /// The first listener of the least slack, if there are streams.
    pub tightest: Option<Tightest>,
}

/// The listener whose stream is closest to its deadline, or the latest.
#[derive(Clone, Copy)]
pub struct Tightest {
    /// The stream's name.
    pub name: Name,
    /// The name of the listener's node; `None` for the stream's first listener.
    pub listener: Option<Name>,
    /// Its sum and its deadline.
    pub margin: Margin,
}
