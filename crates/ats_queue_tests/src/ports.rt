//! Ports, through the bound of their tie.

ghost use Rattle.std.specs.Prelude.{◌≡◌, ℕ, ◌+◌, ◌<◌, ◌≤◌, true, false, [], length, slice_index, All, IfSome, IfNone};
ghost use Rattle.ats_num.specs.Wire.{IsFrameSize};
ghost use Rattle.ats_transmit.specs.Sending.{last_end};

use ats_num::time::END;
use ats_num::{Early, Late, Ps, Tie};
use ats_transmit::{Offer, Pick, Port};
use std::alloc::AllocGlobal;
use std::process::Abort;

// A port at 1000 ps per bit with room for 8 frames in each class.
fn open<T: Tie>(rt: &(impl Abort + AllocGlobal), tie: T) -> Port<T>
    ensures empty { result.held ≡ [] }
    ensures sent { result.sent ≡ [] }
    ensures rooms { (class : ℕ) → class < 8 → slice_index result.rooms class ≡ 8 }
    ensures free { result.is_sending ≡ false }
{
    Port::open(rt.alloc(), 1000, [8; 8], tie).expect(rt, "room")
}

// Offers one of the first 8 frames, of 64 octets, before anything is sent; their numbers ascend.
fn offer<T: Tie>(port: &mut Port<T>, frame: u32, sender: u32, class: u8, eligible: Ps)
    requires few { length port.old.held < 8 }
    requires ascending { All (λ o. o.frame < frame) port.old.held }
    requires sent { port.old.sent ≡ [] }
    requires rooms { (class : ℕ) → class < 8 → slice_index port.old.rooms class ≡ 8 }
    requires class { class ≤ 7 }
    ensures count { length port.new.held ≡ length port.old.held + 1 }
    ensures frames { All (λ o. o.frame < frame + 1) port.new.held }
    ensures sent { port.new.sent ≡ [] }
    ensures rooms { port.new.rooms ≡ port.old.rooms }
    ensures free { port.new.is_sending ≡ port.old.is_sending }
{
    port.offer(Offer {
        frame,
        sender,
        class,
        eligible,
        octets: 64,
    });
}

// Starts the next frame when it is due.
fn start<T: Tie>(port: &mut Port<T>) -> Option<(u32, Ps)>
    requires { port.old.is_sending ≡ false }
    ensures started { IfSome result (λ r. port.new.is_sending ≡ true) }
    ensures ends { IfSome result (λ r. last_end port.new.sent ≡ r.1.0) }
    ensures idle { IfNone result (port.new.is_sending ≡ false) }
{
    let now = port.due()?;
    if now.0 > END {
        return None;
    }
    match port.select(now) {
        Pick::Start { frame, end } => Some((frame, end)),
        _ => None,
    }
}

// Sends the next frame, when it is due, to its end.
fn send<T: Tie>(port: &mut Port<T>) -> Option<(u32, u64)>
    requires { port.old.is_sending ≡ false }
    ensures { port.new.is_sending ≡ false }
{
    let (_, end) = start(port)?;
    Some((port.finish(end), end.0))
}

// Four frames in the order in which they are sent, each with its end: a lower one is on the way when two of a class
// become eligible at the moment of its end, and one of a higher class a picosecond after that.
fn order<T: Tie>(rt: &(impl Abort + AllocGlobal), tie: T) -> [Option<(u32, u64)>; 5] {
    let mut port = open(rt, tie);
    offer(&mut port, 0, 0, 1, Ps(5));
    offer(&mut port, 1, 1, 6, Ps(672_005));
    offer(&mut port, 2, 2, 6, Ps(672_005));
    offer(&mut port, 3, 0, 7, Ps(672_006));
    [
        send(&mut port),
        send(&mut port),
        send(&mut port),
        send(&mut port),
        send(&mut port),
    ]
}

#[test]
fn sends_the_highest_class_once_free(rt: HostRuntime) {
    let [first, second] = [Some((0, 672_005)), Some((3, 2_016_005))];
    let early = order(&rt, Early);
    assert!(rt;
        early
            == [
                first,
                Some((1, 1_344_005)),
                second,
                Some((2, 2_688_005)),
                None
            ]
    );
    let late = order(&rt, Late);
    assert!(rt;
        late == [
            first,
            Some((2, 1_344_005)),
            second,
            Some((1, 2_688_005)),
            None
        ]
    );
}
