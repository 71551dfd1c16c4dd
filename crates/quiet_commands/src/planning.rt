// What a command plans.
ghost use Rattle.std.specs.Prelude.{◌≡◌, false, [], None};
ghost use Rattle.user_tasks.specs.Asks.{changes_factor};
ghost use Rattle.core_terms.specs.Asked.{goals_fault, goals_of, is_dry};

use goal_set::GoalList;
use user_tasks::Ask;

/// A plan that is asked for, with its goals. As a request it names no broker, and would be carried
/// out.
#[derive(Drop)]
pub struct Planning {
    pub ask: Ask,
    pub goals: GoalList,
    ghost named: { goals ≡ goals_of ask },
    ghost faultless: { goals_fault ask ≡ None },
    ghost carried: { is_dry ask ≡ false },
    ghost plans: { changes_factor ask ≡ false },
    ghost no_broker: { ask.brokers ≡ [] },
}
