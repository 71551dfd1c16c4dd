//! Goals with one unit for each partition, by a rule of what is wrong with its list.
#![tactic(auto)]

mod goal;
mod rule;

pub use goal::PartitionGoal;
pub use rule::ListRule;
