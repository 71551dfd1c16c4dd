//! Cluster files that are made from a seed, to try the planner without a cluster.
#![tactic(auto)]

mod brokers;
mod cluster;
mod draws;
mod loads;
mod partitions;

pub use cluster::cluster_text;
