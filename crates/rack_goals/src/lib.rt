//! Goals with one unit for each partition: its members stand on distinct racks and on no lost
//! broker, and it isn't led from a demoted one.
#![tactic(auto)]

ghost use Rattle.goal_terms.specs.Partitions.{demotion_goal, evacuation_goal};
ghost use Rattle.plan_terms.specs.Racks.{rack_goal};
ghost use Rattle.std.specs.Prelude.{◌≡◌};

mod demoted;
mod lost;
mod rack;

pub use demoted::{DemotionGoal, DemotionRule};
pub use lost::{EvacuationGoal, EvacuationRule};
use move_actions::Goal;
pub use rack::{RackAwareGoal, RackRule};

/// What the goals mean for a cluster.
pub fn meanings()
    ensures evacuation { ⟦<EvacuationGoal as Goal>⟧.meaning ≡ λ _ c. evacuation_goal c }
    ensures rack { ⟦<RackAwareGoal as Goal>⟧.meaning ≡ λ _ c. rack_goal c }
    ensures demotion { ⟦<DemotionGoal as Goal>⟧.meaning ≡ λ _ c. demotion_goal c }
{}
