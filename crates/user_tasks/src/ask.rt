// What a request for a plan asks.
ghost use Rattle.std.specs.Prelude.{◌≡◌, ◌↔◌, IfOk, IsTrue};

use plan_terms::{GoalName, ListOf, Memory, Name, Topic};
use std::alloc::Global;
use std::marker::Model;

/// What is shown of the service.
#[derive(Clone, Copy, PartialEq, Eq, Debug)]
pub enum Query {
    /// How far the executor is, and how many partitions have valid loads.
    State,
    /// The loads of the brokers.
    Load,
    /// The replicas of the partitions, and what is being moved.
    ClusterState,
    /// The user tasks.
    UserTasks,
}

/// What a plan is asked for.
#[derive(Clone, Copy, PartialEq, Eq, Debug)]
pub enum Op {
    /// A plan alone, which nothing carries out.
    Proposals,
    Rebalance,
    AddBroker,
    RemoveBroker,
    DemoteBroker,
    /// Another replication factor of some topics. No plan is made for it.
    TopicConfiguration,
}

/// A request for a plan.
#[derive(Drop)]
pub struct Ask {
    pub op: Op,
    /// The ids of the brokers that are added, removed or demoted.
    pub brokers: ListOf<u32>,
    /// The goals by name; none for all of them.
    pub goals: ListOf<GoalName>,
    /// Whether hard goals may be left out.
    pub skip: bool,
    /// The topics of which no replica moves but off lost brokers.
    pub excluded: ListOf<Topic>,
    /// Whether the plan is not to be carried out.
    pub dryrun: bool,
    /// The topics of which the replication factor is to change.
    pub topics: ListOf<Topic>,
    /// How many replicas each of their partitions is to have: 1 to 8, and 0 where no factor is to
    /// change.
    pub factor: u32,
}

impl Model for Ask {
    ghost use Rattle.std.specs.Prelude.{◌≡◌, true};
    ghost use Rattle.user_tasks.specs.Asks.{AskView};
    ghost use Rattle.user_tasks.specs.Factors.{fits_op};

    ghost Value = { AskView };

    ghost view = { λ a. record {
      op = a.op;
      brokers = a.brokers;
      goals = a.goals;
      skip = a.skip;
      excluded = a.excluded;
      dryrun = a.dryrun;
      topics = a.topics;
      factor = a.factor;
    } };

    ghost invariant = { λ a. fits_op a.op a.factor ≡ true };
}

fn same_names<K>(one: &[Name<K>], other: &[Name<K>]) -> bool
    ensures { IsTrue result ↔ (one.now ≡ other.now) }
{
    if one.len() != other.len() {
        return false;
    }
    for (place, name) in one.iter().enumerate() {
        if name.as_str() != other[place].as_str() {
            return false;
        }
    }
    true
}

// The same names.
fn copied<K>(alloc: Global, names: &[Name<K>]) -> Result<ListOf<Name<K>>, Memory>
    ensures { IfOk result (λ l. l ≡ names.now) }
{
    let mut copies = Vec::new(alloc);
    for name in names {
        copies.push(name.copy(alloc)?)?;
    }
    Ok(ListOf::new(copies))
}

impl Ask {
    /// The same request.
    pub fn copy(&self, alloc: Global) -> Result<Ask, Memory>
        ensures { IfOk result (λ a. a ≡ self.now) }
    {
        Ok(Ask {
            op: self.op,
            brokers: ListOf::new(Vec::from_slice(alloc, self.brokers.as_slice())?),
            goals: copied(alloc, self.goals.as_slice())?,
            skip: self.skip,
            excluded: copied(alloc, self.excluded.as_slice())?,
            dryrun: self.dryrun,
            topics: copied(alloc, self.topics.as_slice())?,
            factor: self.factor,
        })
    }

    /// Whether both ask the same.
    pub fn is_same(&self, other: &Ask) -> bool
        ensures { IsTrue result ↔ (self.now ≡ other.now) }
    {
        self.op == other.op
            && self.brokers.as_slice() == other.brokers.as_slice()
            && same_names(self.goals.as_slice(), other.goals.as_slice())
            && self.skip == other.skip
            && same_names(self.excluded.as_slice(), other.excluded.as_slice())
            && self.dryrun == other.dryrun
            && same_names(self.topics.as_slice(), other.topics.as_slice())
            && self.factor == other.factor
    }
}
