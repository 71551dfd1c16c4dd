//! The words of planning: the plain types that the crates above share and, in `specs/`, every
//! definition of planning that their contracts cite.
#![tactic(auto)]

mod actions;
mod cluster;
mod commas;
mod digits;
mod faults;
mod laws;
mod lists;
mod ratio;
pub mod resources;
mod settings;
mod texts;

pub use actions::{Action, Actions};
pub use cluster::{Broker, BrokerState, Loads, MinLeaders, MinLeadersList, Options, Part, Res4};
pub use commas::{names, pieces};
pub use digits::{read_digits, read_whole};
pub use faults::{CaseFault, Limit, Memory};
pub use laws::{
    definitions_on_examples, each_action_is_listed_once, legal_actions_keep_lists,
    no_legal_action_helps, turn_keeps_earlier_goals,
};
pub use lists::{ListOf, Proposal, Replicas, copy_lists, has, leads};
pub use ratio::Ratio;
pub use settings::{Caps, Measured, Sample, WindowRules};
pub use texts::{GoalName, Name, OfGoal, OfRack, OfTopic, RackName, Topic};
