// The demotion rule: no list is led from a broker that is not to lead.
ghost use Rattle.goal_terms.specs.Partitions.{demoted_first};
ghost use Rattle.plan_terms.specs.Cluster.{some_broker};
ghost use Rattle.plan_terms.specs.States.{is_demoted};
ghost use Rattle.std.specs.Prelude.{◌≡◌, ◌≤◌, false, length};

use load_model::Case;
use partition_goals::{ListRule, PartitionGoal};

/// The rule that the first member of a list isn't a broker that is not to lead.
#[derive(Clone, Copy)]
pub struct DemotionRule;

/// The goal that no broker leads that is not to, which is soft. A partition's excess is 1 where its
/// first member is on a demoted broker. It is what Cruise Control asks when it demotes brokers.
pub type DemotionGoal = PartitionGoal<DemotionRule>;

impl ListRule for DemotionRule {
    ghost use Rattle.goal_terms.proofs.PartitionGoals.{demoted_first-le};

    ghost list_excess = { λ _ c list. demoted_first c list };

    ghost hard = { λ _. false };

    fn new() -> Self {
        DemotionRule
    }

    fn is_hard(&self) -> bool {
        false
    }

    fn excess_of(&self, case: &Case, list: &[u32]) -> usize {
        match list {
            [] => 0,
            [first, ..] => usize::from(case.is_demoted(*first)),
        }
    }

    ghost within = { λ _ c list. demoted_first-le c list };
}
