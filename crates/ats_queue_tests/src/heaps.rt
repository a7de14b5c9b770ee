//! An agenda and a class queue of a million entries, which no search from end to end would get
//! through in a test's time.

ghost use Rattle.std.specs.Prelude.{◌≡◌, ◌+◌, ◌<◌, ◌≤◌, [], None, length, All};
ghost use Rattle.ats_events.specs.Contents.{opened};

use ats_events::{Agenda, Moment, Up, phase};
use ats_num::{Early, Ps};
use ats_queue::{ClassQueue, Queued};
use std::process::Abort;

const ENTRIES: u32 = 1_000_000;

// The time of an entry. As 7919 and the number of entries share no factor, each time below that
// number comes once.
fn scattered(k: u32) -> Ps
    requires { k < 1000000 }
{
    Ps(u64::from(k) * 7919 % u64::from(ENTRIES))
}

// Inserts all moments, whose ids ascend.
fn fill_agenda(agenda: &mut Agenda<Up, u32>)
    requires { agenda.old ≡ opened 1000000 record {} }
{
    for k in 0..ENTRIES {
        let moment = Moment {
            at: scattered(k),
            phase: phase::ARRIVAL,
            id: k,
        };
        agenda.insert(moment, k);
    }
}

// Whether the times come from 0 on, one after another.
fn pops_ascend(agenda: &mut Agenda<Up, u32>) -> bool {
    for time in 0..u64::from(ENTRIES) {
        match agenda.pop() {
            Some(entry) if entry.0.at.0 == time => {}
            _ => return false,
        }
    }
    agenda.pop().is_none()
}

#[test]
fn an_agenda_pops_a_million(rt: HostRuntime) {
    let mut agenda = Agenda::open(rt.alloc(), ENTRIES, Up).expect(&rt, "room");
    fill_agenda(&mut agenda);
    assert!(rt; pops_ascend(&mut agenda));
}

// Inserts all frames, whose numbers ascend, each of one sender.
fn fill_queue(queue: &mut ClassQueue<Early>)
    requires { queue.old ≡ record { held = []; capacity = 1000000; tie = record {} } }
{
    for k in 0..ENTRIES {
        queue.insert(Queued {
            frame: k,
            sender: 0,
            eligible: scattered(k),
            octets: 64,
        });
    }
}

// Whether the frames that become eligible at 0, 1 and so on are taken one after another.
fn takes_ascend(queue: &mut ClassQueue<Early>) -> bool {
    for time in 0..u64::from(ENTRIES) {
        match queue.take(Ps(u64::from(ENTRIES))) {
            Some(queued) if queued.eligible.0 == time => {}
            _ => return false,
        }
    }
    queue.next_time().is_none()
}

#[test]
fn a_queue_gives_a_million(rt: HostRuntime) {
    let mut queue = ClassQueue::open(rt.alloc(), ENTRIES, Early).expect(&rt, "room");
    fill_queue(&mut queue);
    assert!(rt; takes_ascend(&mut queue));
}
