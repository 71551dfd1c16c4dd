//! Rounds: what a planner and a mover do, one after another, over whatever takes their events.
#![tactic(auto)]

mod asker;
mod drains;
mod ends;
mod owner;
mod pumps;
mod round;
mod takes;
mod work;

pub use asker::Asker;
pub use drains::{DrainEnd, drain};
pub use ends::{end_with, give_back, tell};
pub use pumps::{pump, pump_book};
pub use round::{Found, one_round, take_work};
pub use takes::{NoWork, ToPlan, ask_job, ask_work};
pub use work::{copy_work, do_job, do_work};
