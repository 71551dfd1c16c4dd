//! The words of goals over brokers: a broker's quantity, its bounds, what an action does to both,
//! and, in `specs/`, every definition that the goals' contracts cite.
#![tactic(auto)]

mod heat;
mod laws;
mod room;
mod trade;

pub use heat::Heat;
pub use laws::{
    actions_trade, bounds_are_small, broker_rooms_decide, cases_are_limited,
    cold_brokers_lessen_nothing, cold_members_lessen_nothing, cold_topics_lessen_nothing,
    excesses_in_numbers, goal_measures_are_small, goals_on_examples, heats_tell,
    idle_trades_lessen_nothing, legality_stays, measures_are_small, partition_measures_are_small,
    quantities_are_small, quantities_are_sums, rooms_stay, topic_measures_are_small, topics_add_up,
    topics_come_first, totals_are_sums, totals_stay, touched_topics_accept, two_brokers_accept,
    two_brokers_lessen, verdicts_stay, weights_are_small,
};
pub use room::Room;
pub use trade::{Sides, Trade};
