//! Goals with one unit for each broker that isn't lost: a quantity of the broker, and the bounds
//! that it should stay in.
#![tactic(auto)]

mod amount;
mod band;
mod capacity;
mod excess;
mod goal;
mod names;
mod shares;
mod sides;
mod topics;
mod usage;

pub use amount::{Amount, LeaderIn, Leaders, Load, NewAmount, PotentialOut, Replicas};
pub use band::{Band, Edges, NewBand};
pub use capacity::{AtMost, WithinCapacity};
pub use excess::{
    amount_at, broker_at, excess_at_place, heat_at_place, leading_count, leading_place,
    room_at_place, total_of, unit_count, unit_excess, unit_place,
};
pub use goal::BrokerGoal;
pub use names::{
    Balance, Cpu, Disk, Hard, LeaderBalance, NetworkIn, NetworkOut, ReplicaBalance, Resource, Soft,
    Strength,
};
pub use shares::Even;
pub use sides::sides_of;
pub use topics::{first_topic_place, second_topic_place, topics_of};
pub use usage::{BelowUse, NearUse};
