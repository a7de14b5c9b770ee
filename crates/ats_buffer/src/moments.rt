//! The moments of a run at which what ports hold changes.

ghost use Rattle.std.specs.Prelude.{◌≡◌, ◌<◌, ◌++◌, length, IfOk, OnOk};
ghost use Rattle.ats_trace.specs.Journey.{legs_in};
ghost use Rattle.ats_trace.specs.Run.{IsIdeal};
ghost use Rattle.ats_trace.specs.Stored.{travel_at};
ghost use Rattle.ats_buffer.specs.Moments.{AreByFrame, AreMomentsOf, AreReordered};
ghost use Rattle.ats_buffer.specs.Moments.{moments_of_frame, moments_of_leg, moments_at};
ghost use Rattle.ats_buffer.specs.Moments.{moments_between, order_of};

use crate::legs::class_of;
use ats_network::Network;
use ats_num::Ps;
use ats_num::wire::wire_bits;
use ats_trace::{HopRecord, Run};
use std::alloc::{AllocError, Global};

/// No run has more moments: two for each of at most 200,000 frames at each of at most 65,536 ports.
pub const MAX_MOMENTS: u64 = 26_214_400_000;

/// A moment at which what a port holds of a class changes.
#[derive(Clone, Copy)]
pub struct Moment {
    /// When.
    pub at: Ps,
    /// Whether a frame comes to the port's node; else a frame's transmission ends.
    pub comes: bool,
    /// The number of the port.
    pub port: u32,
    /// The frame's class there, 0 to 7.
    pub class: u8,
    /// The frame's wire bits.
    pub bits: u64,
}

impl Moment {
    // Where it stands among others: they go by time, and at one time what ends goes before what comes.
    fn order(&self) -> u128
        ensures { result ≡ order_of self.now }
    {
        2 * u128::from(self.at.0) + u128::from(self.comes)
    }
}

/// The moments of a legal run, in their order: of each frame at each port to which it comes, on whichever of its legs,
/// when it comes and when its transmission ends, where there is time between them. It takes the time of sorting them.
/// `AllocError` where there is no memory for them, and as much again.
pub fn moments_in_order(
    alloc: Global,
    network: &Network,
    run: &Run,
) -> Result<Vec<Moment>, AllocError>
    requires legal { IsIdeal network.now run.now }
    ensures { IfOk result (λ moments. AreMomentsOf network.now run.now moments.items) }
{
    in_order(moments_by_frame(alloc, network, run)?)
}

// Moments in their order.
fn in_order(mut moments: Vec<Moment>) -> Result<Vec<Moment>, AllocError>
    ensures { IfOk result (λ ordered. AreReordered moments.items ordered.items) }
{
    moments.sort_by_key(|moment| moment.order())?;
    Ok(moments)
}

// The moments of a run, frame by frame.
fn moments_by_frame(alloc: Global, network: &Network, run: &Run) -> Result<Vec<Moment>, AllocError>
    requires legal { IsIdeal network.now run.now }
    ensures { IfOk result (λ moments. AreByFrame network.now run.now moments.items) }
{
    let _topology = network.topology(); // for what a network keeps
    let mut moments = Vec::new(alloc);
    for frame in 0..run.len() as u32 {
        push_frame(&mut moments, network, run, frame)?;
    }
    Ok(moments)
}

// Adds the moments of a frame, leg by leg.
fn push_frame(
    moments: &mut Vec<Moment>,
    network: &Network,
    run: &Run,
    frame: u32,
) -> Result<(), AllocError>
    requires legal { IsIdeal network.now run.now }
    requires frame { frame < length run.now }
    ensures { OnOk result (moments.new.items
        ≡ moments.old.items ++ moments_of_frame network.now frame (travel_at run.now frame)) }
{
    for leg in 0..run.legs(frame) {
        push_leg(moments, network, run, frame, leg)?;
    }
    Ok(())
}

// Adds the moments of a frame along one leg.
fn push_leg(
    moments: &mut Vec<Moment>,
    network: &Network,
    run: &Run,
    frame: u32,
    leg: u32,
) -> Result<(), AllocError>
    requires legal { IsIdeal network.now run.now }
    requires frame { frame < length run.now }
    requires leg { leg < length (legs_in (travel_at run.now frame)) }
    ensures { OnOk result (moments.new.items
        ≡ moments.old.items ++ moments_of_leg network.now frame (travel_at run.now frame) leg) }
{
    let release = run.journeys()[frame as usize].release;
    let path = network.sender_leg(release.sender, leg);
    let bits = wire_bits(release.octets);
    for (hop, visit) in run.hops_of(frame, leg).iter().enumerate() {
        let class = class_of(network, release.sender, leg, hop as u32);
        push_visit(moments, path[hop], class, bits, visit)?;
    }
    Ok(())
}

// Adds the moments of a frame of so many bits at a port, where it has this class.
fn push_visit(
    moments: &mut Vec<Moment>,
    port: u32,
    class: u8,
    bits: u64,
    visit: &HopRecord,
) -> Result<(), AllocError>
    ensures { OnOk result (moments.new.items
        ≡ moments.old.items ++ moments_at port class bits visit.now) }
{
    if let Some((_, end)) = visit.sent() {
        push_stay(moments, port, class, bits, visit.arrival(), end)?;
    }
    Ok(())
}

// Adds the moments of a frame at a port, where there is time between them.
fn push_stay(
    moments: &mut Vec<Moment>,
    port: u32,
    class: u8,
    bits: u64,
    came: Ps,
    end: Ps,
) -> Result<(), AllocError>
    ensures { OnOk result (moments.new.items
        ≡ moments.old.items ++ moments_between port class bits came.0 end.0) }
{
    if came.0 < end.0 {
        moments.push(Moment {
            at: came,
            comes: true,
            port,
            class,
            bits,
        })?;
        moments.push(Moment {
            at: end,
            comes: false,
            port,
            class,
            bits,
        })?;
    }
    Ok(())
}
