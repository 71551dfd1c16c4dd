//! Workers over a shared book: pumps, movers and planners, each with a pass of its own.
#![tactic(auto)]

mod caller;
mod loops;
mod rests;
mod steps;
mod workers;

pub use caller::Caller;
pub use loops::{LoopEnd, make_moves, make_plans};
pub use rests::Rests;
pub use steps::Step;
pub use workers::{mover_loop, planner_loop, pump};
