//! What handles events, and the loop that gives it one after another.

ghost use Rattle.std.specs.Prelude.{◌≡◌, ℕ, ◌<◌, ◌≤◌, List, [], ◌∷◌, Some, All, IsPermutation};
ghost use Rattle.ats_events.specs.declared.moment.Moment.{Moment};

use crate::agenda::Agenda;
use crate::moment::Moment;
use crate::order::TimeOrder;

/// Something that handles events and may put new ones into the agenda.
pub trait Actor<O: TimeOrder> {
    /// What is to be done at a moment.
    type Event: Copy;

    /// A number that falls with each handled event, so that an end comes.
    ghost left: { Self → ℕ };

    /// What holds between events, of the actor and of the agenda's entries, capacity and order.
    ghost holds: { Self → List (Moment × Self.Event) → ℕ → O → Type 0 };

    /// The first actor is a later state of the second.
    ghost follows: { Self → Self → Type 0 };

    /// Handles an event whose entry was just popped, and may insert others. Before the call, what
    /// holds does so with this entry put back, and its moment is the last popped one and is before
    /// those of all entries. After it, less is left, what holds does so again, the actor follows
    /// the one that it was, and the agenda has its capacity and order still.
    fn handle(&mut self, moment: Moment, event: Self::Event, agenda: &mut Agenda<O, Self::Event>)
        requires holds { holds self.old ((moment, event) ∷ agenda.old.entries) agenda.old.capacity agenda.old.order }
        requires last { agenda.old.last ≡ Some moment }
        requires first { All (λ entry. O.before agenda.old.order moment entry.0) agenda.old.entries }
        ensures left { left self.new < left self.old }
        ensures holds { holds self.new agenda.new.entries agenda.new.capacity agenda.new.order }
        ensures follows { follows self.new self.old }
        ensures capacity { agenda.new.capacity ≡ agenda.old.capacity }
        ensures order { agenda.new.order ≡ agenda.old.order };

    /// Each actor follows itself.
    ghost reflexive: { (actor : Self) → follows actor actor };

    /// An actor that follows a second, which follows a third, follows the third.
    ghost transitive: { (third second first : Self) → follows third second → follows second first
        → follows third first };

    /// What holds does not depend on the order in which the entries are listed.
    ghost permuted: { (actor : Self) (entries other : List (Moment × Self.Event)) (capacity : ℕ) (order : O)
        → IsPermutation entries other → holds actor entries capacity order → holds actor other capacity order };
}

/// Gives the actor one event after another, each time the one whose moment is before those of all
/// others that are in the agenda then, until the agenda is empty. It takes no memory. Which moment
/// is popped last is left open.
pub fn drive<O: TimeOrder, A: Actor<O>>(actor: &mut A, agenda: &mut Agenda<O, A::Event>)
    requires { A.holds actor.old agenda.old.entries agenda.old.capacity agenda.old.order }
    ensures empty { agenda.new.entries ≡ [] }
    ensures holds { A.holds actor.new agenda.new.entries agenda.new.capacity agenda.new.order }
    ensures follows { A.follows actor.new actor.old }
    ensures left { A.left actor.new ≤ A.left actor.old }
    ensures capacity { agenda.new.capacity ≡ agenda.old.capacity }
    ensures order { agenda.new.order ≡ agenda.old.order }
{
    while let Some(entry) = agenda.pop() {
        actor.handle(entry.0, entry.1, agenda);
    }
}
