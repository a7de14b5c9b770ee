//! Class queues at each of the three ties, through the bound.

ghost use Rattle.std.specs.Prelude.{◌≡◌, ◌+◌, ◌<◌, ◌≤◌, length, All};

use ats_num::{Early, Late, Mixed, Ps, Tie};
use ats_queue::{ClassQueue, Queued};
use std::alloc::AllocGlobal;
use std::process::Abort;

// A frame of 64 octets.
fn queued(frame: u32, sender: u32, eligible: Ps) -> Queued
    ensures { result ≡ record { frame = frame; sender = sender; eligible = eligible; octets = 64 } }
{
    Queued {
        frame,
        sender,
        eligible,
        octets: 64,
    }
}

// The number of the frame that a queue gives up next.
fn next<T: Tie>(queue: &mut ClassQueue<T>, now: Ps) -> Option<u32> {
    Some(queue.take(now)?.frame)
}

// Inserts a frame whose number is less than those that are held.
fn put<T: Tie>(queue: &mut ClassQueue<T>, frame: u32, sender: u32, eligible: Ps)
    requires room { length queue.old.held < queue.old.capacity }
    requires descending { All (λ x. frame + 1 ≤ x.frame) queue.old.held }
    ensures count { length queue.new.held ≡ length queue.old.held + 1 }
    ensures frames { All (λ x. frame ≤ x.frame) queue.new.held }
    ensures capacity { queue.new.capacity ≡ queue.old.capacity }
{
    queue.insert(queued(frame, sender, eligible));
}

// Four frames, of which three are eligible together, in the order in which a queue gives them up.
fn taken<T: Tie>(rt: &(impl Abort + AllocGlobal), tie: T) -> [Option<u32>; 4] {
    let mut queue = ClassQueue::open(rt.alloc(), 4, tie).expect(rt, "room");
    put(&mut queue, 4, 7, Ps(20));
    put(&mut queue, 3, 2, Ps(10));
    put(&mut queue, 2, 9, Ps(20));
    put(&mut queue, 1, 5, Ps(20));
    [
        next(&mut queue, Ps(20)),
        next(&mut queue, Ps(20)),
        next(&mut queue, Ps(20)),
        next(&mut queue, Ps(20)),
    ]
}

#[test]
fn breaks_ties(rt: HostRuntime) {
    let early = taken(&rt, Early);
    assert!(rt; early == [Some(3), Some(1), Some(2), Some(4)]);
    let late = taken(&rt, Late);
    assert!(rt; late == [Some(3), Some(2), Some(4), Some(1)]);
    let mixed = taken(&rt, Mixed(2));
    assert!(rt; mixed == [Some(3), Some(4), Some(1), Some(2)]);
}
