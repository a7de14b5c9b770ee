//! What a bridge is told of one sender.

/// What a bridge is told of the scheduler of a stream.
#[derive(Clone, Copy, Debug, PartialEq, Eq)]
pub struct Shaping {
    /// The committed rate, in bits per second (IEEE Std 802.1Qcr, CommittedInformationRate).
    pub rate_bps: u64,
    /// The committed burst, in bits.
    pub burst_bits: u64,
    /// The maximum residence time of the scheduler's group, in nanoseconds.
    pub residence_ns: u32,
}

/// What a bridge is told of the frames of a stream or flow that come to it through one port and go
/// on from it by another.
#[derive(Clone, Copy, Debug, PartialEq, Eq)]
pub struct Setting {
    /// The number of the bridge among the nodes.
    pub bridge: u32,
    /// The number of the port through which the frames come: the one before on their path, which leads to the bridge.
    pub received_from: u32,
    /// Their class at that port, which with it tells the group of schedulers; 0 for a flow.
    pub class: u8,
    /// The number of the stream or flow among the senders.
    pub sender: u32,
    /// The scheduler that judges the frames; `None` exactly for a flow, which has none.
    pub scheduler: Option<Shaping>,
    /// The most octets of a frame, counted with the frame check sequence.
    pub max_octets: u32,
    /// The number of the port by which the frames go on.
    pub sent_to: u32,
    /// Their class at that port; 0 for a flow.
    pub class_there: u8,
}
