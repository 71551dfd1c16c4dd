// The lists to which turns lead.
ghost use Rattle.std.specs.Prelude.{◌≡◌, IfOk, map};
ghost use Rattle.plan_terms.specs.Belongs.{Belongs, IsBookOf};
ghost use Rattle.plan_terms.specs.Effect.{after_all};
ghost use Rattle.plan_terms.specs.Trace.{after_turns};
ghost use Rattle.plan_summary.specs.Legal.{AreLegal, AreLegalTurns};

use goal_set::Turned;
use load_model::{Assign, Case, LoadBook};
use move_actions::Moves;
use plan_terms::{Action, Memory};
use std::alloc::Global;

// Makes the changes of a turn's actions, in order.
fn take_turn(case: &Case, book: &mut LoadBook, actions: &[Action])
    requires belongs { IsBookOf case.now book.old }
    requires legal { AreLegal case.now book.old.lists actions.now }
    ensures lists { book.new.lists ≡ after_all actions.now book.old.lists }
    ensures belongs { IsBookOf case.now book.new }
{
    for action in actions {
        book.apply(case, *action);
    }
}

/// The book of the lists to which turns lead from the start.
pub fn book_after(
    alloc: Global,
    case: &Case,
    start: &Assign,
    turns: &[Turned],
) -> Result<LoadBook, Memory>
    requires belongs { Belongs case.now start.now }
    requires legal { AreLegalTurns case.now start.now (map (λ t. t.actions) turns.now) }
    ensures lists { IfOk result
        (λ b. b.lists ≡ after_turns (map (λ t. t.actions) turns.now) start.now) }
    ensures belongs { IfOk result (IsBookOf case.now) }
{
    let mut book = LoadBook::new(alloc, case, start)?;
    for turn in turns {
        take_turn(case, &mut book, turn.actions.as_slice());
    }
    Ok(book)
}
