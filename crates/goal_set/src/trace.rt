// What the turns of a run did.
ghost use Rattle.std.specs.Prelude.{◌≡◌, IfOk};

use crate::kinds::GoalKind;
use plan_terms::{Actions, Memory};
use std::alloc::Global;

/// The turn of one goal, with its actions in order.
#[derive(Drop)]
pub struct Turned {
    pub goal: GoalKind,
    pub actions: Actions,
}

impl Turned {
    /// The same turn.
    pub fn copy(&self, alloc: Global) -> Result<Turned, Memory>
        ensures { IfOk result (λ t. t ≡ self.now) }
    {
        Ok(Turned {
            goal: self.goal,
            actions: self.actions.copy(alloc)?,
        })
    }
}

/// The turns of a run, in order, and whether each goal had its turn.
#[derive(Drop)]
pub struct Trace {
    pub turns: Vec<Turned>,
    pub planned: bool,
}

impl Trace {
    /// The same trace.
    pub fn copy(&self, alloc: Global) -> Result<Trace, Memory>
        ensures turns { IfOk result (λ t. t.turns.items ≡ self.now.turns.items) }
        ensures planned { IfOk result (λ t. t.planned ≡ self.now.planned) }
    {
        let mut turns = Vec::new(alloc);
        for turn in &self.turns {
            turns.push(turn.copy(alloc)?)?;
        }
        Ok(Trace {
            turns,
            planned: self.planned,
        })
    }
}
