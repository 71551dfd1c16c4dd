//! Actions on replica lists: which are legal, all of them in order, what each does, and what a goal
//! says of one.
#![tactic(auto)]

mod effects;
mod goals;
mod legality;
mod listing;

pub use effects::{Moves, place_of};
pub use goals::{Goal, measure};
pub use legality::{is_open, legal};
pub use listing::all_actions;
