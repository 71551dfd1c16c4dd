//! The soft goals over brokers about leaders: what they would send, how many they are, and what
//! they receive.
#![tactic(auto)]

mod least;

ghost use Rattle.goal_terms.specs.Goals.{leader_distribution_goal, leader_in_goal, potential_out_goal};
ghost use Rattle.std.specs.Prelude.{◌≡◌};

use broker_goals::{
    BelowUse, BrokerGoal, Even, LeaderBalance, LeaderIn, Leaders, NetworkIn, NetworkOut,
    PotentialOut, Soft, WithinCapacity,
};
pub use least::MinTopicLeadersPerBrokerGoal;
use move_actions::Goal;

/// The goal that no broker would send more than the part of its capacity that may be used if it led
/// every partition of which it is a member: Cruise Control's PotentialNwOutGoal.
pub type PotentialNwOutGoal = BrokerGoal<PotentialOut, WithinCapacity<NetworkOut>, Soft>;

/// The goal that leaders are spread evenly: Cruise Control's LeaderReplicaDistributionGoal.
pub type LeaderReplicaDistributionGoal = BrokerGoal<Leaders, Even<LeaderBalance>, Soft>;

/// The goal that no broker receives much more as a leader, for its capacity, than all together:
/// Cruise Control's LeaderBytesInDistributionGoal.
pub type LeaderBytesInDistributionGoal = BrokerGoal<LeaderIn, BelowUse<NetworkIn>, Soft>;

/// What the goals mean for a cluster, by the thresholds of its options.
pub fn meanings()
    ensures outbound { ⟦<PotentialNwOutGoal as Goal>⟧.meaning ≡ λ _ c. potential_out_goal c }
    ensures leads { ⟦<LeaderReplicaDistributionGoal as Goal>⟧.meaning
        ≡ λ _ c. leader_distribution_goal c }
    ensures inbound { ⟦<LeaderBytesInDistributionGoal as Goal>⟧.meaning ≡ λ _ c. leader_in_goal c }
{}
