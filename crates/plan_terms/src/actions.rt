// Actions, and lists of them.
ghost use Rattle.std.specs.Prelude.{◌≡◌, [], ◌∷◌, ◌++◌, IfOk, OnOk, OnErr};

use crate::Memory;
use std::alloc::Global;
use std::marker::Model;

/// A change of the replica lists. Partitions go by their place, brokers by their id.
#[derive(Clone, Copy, Debug, PartialEq, Eq)]
pub enum Action {
    /// Broker `to` stands in the place of `from`.
    Move {
        part: u32,
        from: u32,
        to: u32,
    },
    /// Broker `to` and the first member exchange places.
    Lead {
        part: u32,
        to: u32,
    },
    /// Broker `to` stands in the place of `from` in `part`, and `from` in the place of `to` in
    /// `other`.
    Swap {
        part: u32,
        from: u32,
        other: u32,
        to: u32,
    },
}

/// The actions of one turn, in order.
#[derive(Drop)]
pub struct Actions {
    items: Vec<Action>,
}

impl Model for Actions {
    ghost use Rattle.std.specs.Prelude.{List};
    ghost use Rattle.plan_terms.specs.declared.actions.Action.{Action};

    ghost Value = { List Action };

    ghost view = { λ a. a.items.items };
}

impl Actions {
    /// No action.
    pub fn new(alloc: Global) -> Self
        ensures { result ≡ [] }
    {
        Actions {
            items: Vec::new(alloc),
        }
    }

    /// The actions, in order.
    pub fn as_slice(&self) -> &[Action]
        ensures { result.now ≡ self.now }
    {
        self.items.as_slice()
    }

    /// Puts an action at the end.
    pub fn push(&mut self, action: Action) -> Result<(), Memory>
        ensures ok { OnOk result (self.new ≡ self.old ++ action ∷ []) }
        ensures err { OnErr result (self.new ≡ self.old) }
    {
        self.items.push(action)?;
        Ok(())
    }

    /// The same actions.
    pub fn copy(&self, alloc: Global) -> Result<Actions, Memory>
        ensures { IfOk result (λ a. a ≡ self.now) }
    {
        Ok(Actions {
            items: Vec::from_slice(alloc, self.as_slice())?,
        })
    }
}
