//! What is told of a run of the planner in a few lines: how much it changes, and how far each goal
//! was broken before and after.
#![tactic(auto)]

mod lines;
mod replay;
mod summary;

pub use summary::{failure_summary, plan_summary};
