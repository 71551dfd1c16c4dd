//! The optimiser: a plan for a case, or the failure of the first hard goal that stays broken.
#![tactic(auto)]

mod optimiser;
mod turn;

pub use optimiser::{PlanFault, optimise};
