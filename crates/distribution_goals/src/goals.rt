// The distribution goals by name.
ghost use Rattle.goal_terms.specs.Goals.{replica_distribution_goal, topic_distribution_goal, usage_distribution_goal};
ghost use Rattle.plan_terms.specs.Resources.{CPU, NW_IN, NW_OUT, DISK};
ghost use Rattle.std.specs.Prelude.{◌≡◌};

use crate::topic::TopicReplicaDistributionGoal;
use broker_goals::{
    BrokerGoal, Cpu, Disk, Even, Load, NearUse, NetworkIn, NetworkOut, ReplicaBalance, Replicas,
    Soft,
};
use move_actions::Goal;

/// The goal that replicas are spread evenly: Cruise Control's ReplicaDistributionGoal.
pub type ReplicaDistributionGoal = BrokerGoal<Replicas, Even<ReplicaBalance>, Soft>;

/// The goal that each broker uses its disk about as much as all brokers together use theirs: Cruise
/// Control's DiskUsageDistributionGoal.
pub type DiskUsageDistributionGoal = BrokerGoal<Load<Disk>, NearUse<Disk>, Soft>;

/// The same of what comes in over the network: Cruise Control's
/// NetworkInboundUsageDistributionGoal.
pub type NetworkInboundUsageDistributionGoal = BrokerGoal<
    Load<NetworkIn>,
    NearUse<NetworkIn>,
    Soft,
>;

/// The same of what goes out over the network: Cruise Control's
/// NetworkOutboundUsageDistributionGoal.
pub type NetworkOutboundUsageDistributionGoal = BrokerGoal<
    Load<NetworkOut>,
    NearUse<NetworkOut>,
    Soft,
>;

/// The same of the processors: Cruise Control's CpuUsageDistributionGoal.
pub type CpuUsageDistributionGoal = BrokerGoal<Load<Cpu>, NearUse<Cpu>, Soft>;

/// What the goals mean for a cluster, by the thresholds of its options.
pub fn meanings()
    ensures replicas { ⟦<ReplicaDistributionGoal as Goal>⟧.meaning
        ≡ λ _ c. replica_distribution_goal c }
    ensures topics { ⟦<TopicReplicaDistributionGoal as Goal>⟧.meaning
        ≡ λ _ c. topic_distribution_goal c }
    ensures cpu { ⟦<CpuUsageDistributionGoal as Goal>⟧.meaning
        ≡ λ _ c. usage_distribution_goal CPU c }
    ensures inbound { ⟦<NetworkInboundUsageDistributionGoal as Goal>⟧.meaning
        ≡ λ _ c. usage_distribution_goal NW_IN c }
    ensures outbound { ⟦<NetworkOutboundUsageDistributionGoal as Goal>⟧.meaning
        ≡ λ _ c. usage_distribution_goal NW_OUT c }
    ensures disk { ⟦<DiskUsageDistributionGoal as Goal>⟧.meaning
        ≡ λ _ c. usage_distribution_goal DISK c }
{}
