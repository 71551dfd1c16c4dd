//! The cluster file: what its bytes mean, or the first fault with its place.
#![tactic(auto)]

mod brokers;
mod capacities;
mod config;
mod file;
mod leaders;
mod loads;
mod named;
mod partitions;
mod places;
mod refusal;
mod samples;
mod settings;
mod shape;

pub use file::{ClusterFile, read_cluster};
pub use named::{NamedSample, read_named_sample};
pub use refusal::FileRefusal;
