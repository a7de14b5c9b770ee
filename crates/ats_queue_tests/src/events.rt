//! Agendas in each of the three orders, and an actor, through the bounds.

ghost use Rattle.std.specs.Prelude.{◌≡◌, ℕ, ◌+◌, ◌<◌, ◌≤◌, ◌^◌, [], None, length, All};
ghost use Rattle.std.proofs.Common.{arith};
ghost use Rattle.ats_events.specs.Contents.{opened};
ghost use Rattle.std.proofs.lemmas.List.Sorted.{All-permutation, length_permutation};

use ats_events::{Actor, Agenda, Down, Moment, Scrambled, TimeOrder, Up, drive, phase};
use ats_num::Ps;
use std::alloc::AllocGlobal;
use std::process::Abort;

fn open<O: TimeOrder>(rt: &(impl Abort + AllocGlobal), capacity: u32, order: O) -> Agenda<O, u32>
    ensures { result ≡ opened capacity order }
{
    Agenda::open(rt.alloc(), capacity, order).expect(rt, "room")
}

// Inserts a moment before anything is popped; the ids ascend.
fn put<O: TimeOrder>(agenda: &mut Agenda<O, u32>, moment: Moment)
    requires room { length agenda.old.entries < agenda.old.capacity }
    requires ascending { All (λ entry. entry.0.id < moment.id) agenda.old.entries }
    requires last { agenda.old.last ≡ None }
    ensures count { length agenda.new.entries ≡ length agenda.old.entries + 1 }
    ensures ids { All (λ entry. entry.0.id < moment.id + 1) agenda.new.entries }
    ensures last { agenda.new.last ≡ None }
    ensures capacity { agenda.new.capacity ≡ agenda.old.capacity }
{
    agenda.insert(moment, moment.id);
}

fn moment(at: u64, phase: u32, id: u32) -> Moment
    ensures time { result.at.0 ≡ at }
    ensures id { result.id ≡ id }
{
    Moment {
        at: Ps(at),
        phase,
        id,
    }
}

// The event of the moment that an agenda gives up next.
fn next<O: TimeOrder>(agenda: &mut Agenda<O, u32>) -> Option<u32> {
    Some(agenda.pop()?.1)
}

// Four moments, in the order in which an agenda gives them up.
fn popped<O: TimeOrder>(rt: &(impl Abort + AllocGlobal), order: O) -> [Option<u32>; 5] {
    let mut agenda = open(rt, 4, order);
    put(&mut agenda, moment(10, phase::SELECTION, 0));
    put(&mut agenda, moment(10, phase::ARRIVAL, 1));
    put(&mut agenda, moment(10, phase::ARRIVAL, 2));
    put(&mut agenda, moment(9, phase::SELECTION, 3));
    [
        next(&mut agenda),
        next(&mut agenda),
        next(&mut agenda),
        next(&mut agenda),
        next(&mut agenda),
    ]
}

#[test]
fn pops_in_the_order(rt: HostRuntime) {
    let up = popped(&rt, Up);
    assert!(rt; up == [Some(3), Some(1), Some(2), Some(0), None]);
    let down = popped(&rt, Down);
    assert!(rt; down == [Some(3), Some(2), Some(1), Some(0), None]);
    let scrambled = popped(&rt, Scrambled(3));
    assert!(rt; scrambled == [Some(3), Some(2), Some(1), Some(0), None]);
}

// Counts down: an event is how many more come, each a picosecond after the one before.
#[derive(Drop)]
struct Countdown {
    left: u32,
    handled: u32,
}

impl<O: TimeOrder> Actor<O> for Countdown {
    type Event = u32;

    ghost left = { λ actor. actor.left };

    ghost holds = { λ actor entries capacity order. (1 ≤ capacity)
        × (length entries ≤ 1)
        × All (λ entry. (entry.1 < actor.left) × (entry.0.at.0 + entry.1 < 2 ^ 64)) entries
        × (actor.handled + actor.left < 2 ^ 32) };

    ghost follows = { λ later earlier. earlier.handled ≤ later.handled };

    ghost reflexive = { λ actor. Prim.omega arith };

    ghost transitive = { λ third second first later earlier. Prim.omega arith };

    ghost permuted = { λ actor entries other capacity order same holds. (
      holds.0,
      Prim.omega (arith, holds.1, length_permutation entries other same),
      All-permutation (λ entry. (entry.1 < actor.left) × (entry.0.at.0 + entry.1 < 2 ^ 64)) entries other same holds.2,
      holds.3,
    ) };

    fn handle(&mut self, moment: Moment, event: u32, agenda: &mut Agenda<O, u32>) {
        self.left = event;
        self.handled += 1;
        if event > 0 {
            let next = Moment {
                at: Ps(moment.at.0 + 1),
                phase: phase::ARRIVAL,
                id: event,
            };
            agenda.insert(next, event - 1);
        }
    }
}

// How many events are handled where `event` more come after the first.
fn handled<O: TimeOrder>(rt: &(impl Abort + AllocGlobal), order: O, event: u32) -> u32
    requires { event < 100 }
{
    let mut agenda = open(rt, 1, order);
    agenda.insert(moment(5, phase::ARRIVAL, 0), event);
    let mut actor = Countdown {
        left: event + 1,
        handled: 0,
    };
    drive(&mut actor, &mut agenda);
    actor.handled
}

#[test]
fn drives_to_the_end(rt: HostRuntime) {
    assert!(rt; handled(&rt, Down, 4) == 5);
}
