//! Which action the planner takes next: a legal one that the goals before accept and that lessens
//! the goal at hand.
#![tactic(auto)]

mod blocks;
mod kept;
mod kinds;
mod laws;
mod leads;
mod looks;
mod next;
mod nexts;
mod order;
mod ranks;
mod rests;
mod rows;
mod swaps;
mod trades;

pub use blocks::{BLOCK, Finder, Search, first_by_blocks};
pub use kept::{
    Choice, PartWeights, Row, Scan, all_below, all_chosen, all_rows, all_stirring, all_weights,
};
pub use kinds::Kind;
pub use laws::{
    candidates_are_all, exhausted_stay, filters_keep_the_first, moves_come_first,
    replicas_are_unique, rows_are_all, steps_stay,
};
pub use leads::first_lead;
pub use looks::{all_accept, all_give, all_pass, rooms_of, weights_of, wholes_of};
pub use next::{next_in_turn, next_lessening};
pub use nexts::next_in;
pub use order::Order;
pub use rests::Rests;
pub use rows::{first_anywhere, first_to};
pub use swaps::first_swap;
pub use trades::{all_stay, trade_serves};
