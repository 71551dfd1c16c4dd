//! The soft goals over brokers about how evenly replicas and loads are spread.
#![tactic(auto)]

mod goals;
mod topic;

pub use goals::{
    CpuUsageDistributionGoal, DiskUsageDistributionGoal, NetworkInboundUsageDistributionGoal,
    NetworkOutboundUsageDistributionGoal, ReplicaDistributionGoal, meanings,
};
pub use topic::{TopicBalance, TopicReplicaDistributionGoal, TopicReplicas};
