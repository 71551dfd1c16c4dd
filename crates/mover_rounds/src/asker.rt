// What takes events for one actor.
ghost use Rattle.std.specs.Prelude.{◌≡◌, true, IfOk, IfErr};
ghost use Rattle.mover_rounds.specs.Asked.{Known, HasAsked, IsUnasked, StaysUnfinished, gives_back};
ghost use Rattle.mover_rounds.specs.Jobs.{Fits};

use core_terms::{Event, Reply, StepFault};

/// Takes events for one actor and answers each: a book that is owned, or a turn of a shared one
/// with a pass.
pub trait Asker {
    ghost use Rattle.mover_rounds.specs.Asked.{Known};

    /// The rules of the replies, the history that the actor has seen, its own entries, and the
    /// number of the last fault.
    ghost known: { Self → Known };

    /// What else stays, or only grows, from one asking to the next.
    ghost since: { Self → Self → Type 0 };

    /// Asks an event.
    ///
    /// # Errors
    ///
    /// `StepFault::AdminFault` where a call of the admin failed, which only an event that calls it
    /// meets, and only while a task is unfinished. `StepFault::Memory` out of memory, which no
    /// event meets that ends a lease or a ticket which is out, nor the first Close. The event is
    /// handed back then, and isn't an entry.
    fn ask(&mut self, event: Event) -> Result<Reply, (StepFault, Event)>
        ensures since { since self.old self.new }
        ensures asked { IfOk result (HasAsked (known self.old) (known self.new) event) }
        ensures fits { IfOk result (Fits event) }
        ensures unasked { IfErr result
            (λ e. IsUnasked (known self.old) (known self.new) event e.0) }
        ensures handed_back { IfErr result (λ e. e.1 ≡ event) }
        // A lease or a ticket that comes back ends no task.
        ensures unfinished { gives_back event ≡ true
            → StaysUnfinished (known self.old) (known self.new) };

    /// It holds where nothing was asked.
    ghost stays: { (x : Self) → since x x };

    /// It holds from the first asking to the last.
    ghost goes_on: { (x y z : Self) → since x y → since y z → since x z };
}
