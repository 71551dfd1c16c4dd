// The brokers of a file.
ghost use Rattle.std.specs.Prelude.{◌≡◌};
ghost use Rattle.cluster_json.specs.Brokers.{broker_at, rack_at, state_at, state_of};
ghost use Rattle.cluster_json.specs.Reading.{Gives};

use crate::FileRefusal;
use crate::refusal::wrong_shape;
use crate::shape::{Id, Shape, check_object, optional, read_text, required};
use plan_terms::{BrokerState, RackName};
use serde_json::Value;
use std::alloc::Global;

/// A broker of a file, without its capacities.
#[derive(Drop)]
pub struct FileBroker {
    pub id: u32,
    pub rack: Option<RackName>,
    pub state: BrokerState,
}

/// The name of a rack.
struct RackText;

impl Shape for RackText {
    type Out = Option<RackName>;

    ghost meaning = { λ _. rack_at };

    fn read(&self, alloc: Global, value: &Value) -> Result<Option<RackName>, FileRefusal> {
        let name = read_text(alloc, value)?;
        Ok(Some(RackName::new(String::from_str(alloc, name)?)))
    }
}

#[tactic(auto, unfolding(crate::specs::Brokers::state_of))]
fn state_named(alloc: Global, name: &str) -> Result<BrokerState, FileRefusal>
    ensures { Gives (λ s. s) result (state_of name.now) }
{
    if name == "ALIVE" {
        Ok(BrokerState::Alive)
    } else if name == "DEAD" {
        Ok(BrokerState::Dead)
    } else if name == "NEW" {
        Ok(BrokerState::New)
    } else if name == "DEMOTED" {
        Ok(BrokerState::Demoted)
    } else {
        Err(wrong_shape(alloc))
    }
}

/// The name of a state.
struct StateText;

impl Shape for StateText {
    type Out = BrokerState;

    ghost meaning = { λ _. state_at };

    fn read(&self, alloc: Global, value: &Value) -> Result<BrokerState, FileRefusal> {
        let name = read_text(alloc, value)?;
        state_named(alloc, name)
    }
}

/// An item of `brokers`.
pub struct BrokerObject;

impl Shape for BrokerObject {
    type Out = FileBroker;

    ghost meaning = { λ _. broker_at };

    #[tactic(auto, unfolding(crate::specs::Brokers::broker_at))]
    fn read(&self, alloc: Global, value: &Value) -> Result<FileBroker, FileRefusal> {
        check_object(alloc, value)?;
        let id = required(alloc, value, "id", &Id)?;
        let rack = optional(alloc, value, "rack", &RackText, None)?;
        let state = optional(alloc, value, "state", &StateText, BrokerState::Alive)?;
        Ok(FileBroker { id, rack, state })
    }
}
