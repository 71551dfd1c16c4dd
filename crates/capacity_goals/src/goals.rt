// The capacity goals by name.
ghost use Rattle.goal_terms.specs.Goals.{capacity_goal, replica_capacity_goal};
ghost use Rattle.plan_terms.specs.Resources.{CPU, NW_IN, NW_OUT, DISK};
ghost use Rattle.std.specs.Prelude.{◌≡◌};

use broker_goals::{
    AtMost, BrokerGoal, Cpu, Disk, Hard, Load, NetworkIn, NetworkOut, Replicas, WithinCapacity,
};
use move_actions::Goal;

/// The goal that no broker holds more replicas than it may: Cruise Control's ReplicaCapacityGoal. A
/// broker's excess is its replicas above that number.
pub type ReplicaCapacityGoal = BrokerGoal<Replicas, AtMost, Hard>;

/// The goal that no broker's disk holds more than the part of its capacity that may be used: Cruise
/// Control's DiskCapacityGoal. With the limit `num / den`, a broker's excess is
/// `load * den - num * cap`.
pub type DiskCapacityGoal = BrokerGoal<Load<Disk>, WithinCapacity<Disk>, Hard>;

/// The same of what comes in over the network: Cruise Control's NetworkInboundCapacityGoal.
pub type NetworkInboundCapacityGoal = BrokerGoal<Load<NetworkIn>, WithinCapacity<NetworkIn>, Hard>;

/// The same of what goes out over the network: Cruise Control's NetworkOutboundCapacityGoal.
pub type NetworkOutboundCapacityGoal = BrokerGoal<
    Load<NetworkOut>,
    WithinCapacity<NetworkOut>,
    Hard,
>;

/// The same of the processors: Cruise Control's CpuCapacityGoal.
pub type CpuCapacityGoal = BrokerGoal<Load<Cpu>, WithinCapacity<Cpu>, Hard>;

/// What the goals mean for a cluster, by the thresholds of its options.
pub fn meanings()
    ensures replicas { ⟦<ReplicaCapacityGoal as Goal>⟧.meaning ≡ λ _ c. replica_capacity_goal c }
    ensures cpu { ⟦<CpuCapacityGoal as Goal>⟧.meaning ≡ λ _ c. capacity_goal CPU c }
    ensures inbound { ⟦<NetworkInboundCapacityGoal as Goal>⟧.meaning
        ≡ λ _ c. capacity_goal NW_IN c }
    ensures outbound { ⟦<NetworkOutboundCapacityGoal as Goal>⟧.meaning
        ≡ λ _ c. capacity_goal NW_OUT c }
    ensures disk { ⟦<DiskCapacityGoal as Goal>⟧.meaning ≡ λ _ c. capacity_goal DISK c }
{}
