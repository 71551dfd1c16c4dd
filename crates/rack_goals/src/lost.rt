// The evacuation rule: no member stands on a lost broker.
ghost use Rattle.goal_terms.specs.Partitions.{lost_members};
ghost use Rattle.plan_terms.specs.Legal.{is_lost};
ghost use Rattle.std.specs.List.{count_by};
ghost use Rattle.std.specs.Prelude.{◌≡◌, ◌≤◌, true, length};

use load_model::Case;
use partition_goals::{ListRule, PartitionGoal};

/// The rule that no member of a list stands on a lost broker.
#[derive(Clone, Copy)]
pub struct EvacuationRule;

/// The goal that no replica stands on a lost broker, which is hard. A partition's excess is its
/// members on lost brokers. It is what Cruise Control asks when it removes or heals brokers.
pub type EvacuationGoal = PartitionGoal<EvacuationRule>;

impl ListRule for EvacuationRule {
    ghost use Rattle.goal_terms.proofs.PartitionGoals.{lost_members-le};

    ghost list_excess = { λ _ c list. lost_members c list };

    ghost hard = { λ _. true };

    fn new() -> Self {
        EvacuationRule
    }

    fn is_hard(&self) -> bool {
        true
    }

    fn excess_of(&self, case: &Case, list: &[u32]) -> usize {
        list.iter().filter(|member| case.is_lost(**member)).count()
    }

    ghost within = { λ _ c list. lost_members-le c list };
}
