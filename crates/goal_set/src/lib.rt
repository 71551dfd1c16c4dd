//! The goals by name, the ordered lists of them, and what a run of the planner over a list gives.
#![tactic(auto)]

mod any;
mod cause;
mod failure;
mod kinds;
mod list;
mod plan;
mod trace;

pub use any::{AnyGoal, goal_of, goals_of};
pub use cause::Cause;
pub use failure::Failure;
pub use kinds::GoalKind;
pub use list::{GoalFault, GoalList};
pub use plan::Plan;
pub use trace::{Trace, Turned};
