//! The hard goals over brokers: no broker holds more replicas than it may, nor a greater load of a
//! resource than the part of its capacity that may be used.
#![tactic(auto)]

mod goals;

pub use goals::{
    CpuCapacityGoal, DiskCapacityGoal, NetworkInboundCapacityGoal, NetworkOutboundCapacityGoal,
    ReplicaCapacityGoal, meanings,
};
