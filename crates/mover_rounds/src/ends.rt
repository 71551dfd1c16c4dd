// What ends a round.
ghost use Rattle.std.specs.Prelude.{◌≡◌, true, IfOk, IfErr};
ghost use Rattle.mover_rounds.specs.Asked.{IsUnasked, StaysUnfinished, gives_back};
ghost use Rattle.mover_rounds.specs.Made.{Added, Returned, Failed};

use crate::asker::Asker;
use core_terms::{Event, StepFault};

/// Asks an event of whose reply nothing is wanted.
pub fn tell<X: Asker>(asker: &mut X, event: Event) -> Result<(), StepFault>
    ensures since { X.since asker.old asker.new }
    ensures added { IfOk result (λ _. Added (X.known asker.old) (X.known asker.new) event) }
    ensures unasked { IfErr result (IsUnasked (X.known asker.old) (X.known asker.new) event) }
    ensures unfinished { gives_back event ≡ true
        → StaysUnfinished (X.known asker.old) (X.known asker.new) }
{
    match asker.ask(event) {
        Ok(_) => Ok(()),
        Err((fault, _)) => Err(fault),
    }
}

/// Gives back a lease or a ticket. Where it finds no memory, another actor has ended it.
pub fn give_back<X: Asker>(asker: &mut X, back: Event)
    requires { gives_back back ≡ true }
    ensures since { X.since asker.old asker.new }
    ensures returned { Returned (X.known asker.old) (X.known asker.new) back }
    ensures unfinished { StaysUnfinished (X.known asker.old) (X.known asker.new) }
{
    let _ = tell(asker, back);
}

/// Ends a lease or a ticket by an event or, where that is not taken, gives it back.
pub fn end_with<X: Asker>(asker: &mut X, event: Event, back: Event) -> Result<(), StepFault>
    requires { gives_back back ≡ true }
    ensures since { X.since asker.old asker.new }
    ensures added { IfOk result (λ _. Added (X.known asker.old) (X.known asker.new) event) }
    ensures failed { IfErr result (Failed (X.known asker.old) (X.known asker.new) event back) }
{
    match tell(asker, event) {
        Ok(()) => Ok(()),
        Err(fault) => {
            give_back(asker, back);
            Err(fault)
        }
    }
}
