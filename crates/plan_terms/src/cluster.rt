// Brokers, partitions and options of a cluster.
ghost use Rattle.std.specs.Prelude.{◌≡◌, IfOk, Some};
ghost use Rattle.std.specs.Option.{option_map};
ghost use Rattle.plan_terms.specs.States.{is_dead, is_new, is_demoted};

use crate::{ListOf, Memory, RackName, Ratio, Topic};
use std::alloc::Global;

/// Four numbers, one for each resource: CPU, NW_IN, NW_OUT, DISK.
pub type Res4 = [u64; 4];

/// What planning may do with a broker.
#[derive(Clone, Copy, Debug, PartialEq, Eq)]
pub enum BrokerState {
    /// It may hold, take and lead.
    Alive,
    /// It is lost: its replicas are to leave it.
    Dead,
    /// It is being added: while some broker is new, replicas move onto new ones only.
    New,
    /// It is not to lead.
    Demoted,
}

impl BrokerState {
    /// Whether the broker is lost.
    pub fn is_dead(self) -> bool
        ensures { result ≡ is_dead self }
    {
        matches!(self, BrokerState::Dead)
    }

    /// Whether the broker is being added.
    pub fn is_new(self) -> bool
        ensures { result ≡ is_new self }
    {
        matches!(self, BrokerState::New)
    }

    /// Whether the broker is not to lead.
    pub fn is_demoted(self) -> bool
        ensures { result ≡ is_demoted self }
    {
        matches!(self, BrokerState::Demoted)
    }
}

/// A broker.
#[derive(Drop)]
pub struct Broker {
    pub id: u32,
    /// `None` is a rack of the broker's own.
    pub rack: Option<RackName>,
    /// The capacity of each resource, below 2^40. The customary units are percent, KB/s, KB/s and
    /// MB.
    pub cap: Res4,
    pub state: BrokerState,
}

impl Broker {
    /// The same broker.
    pub fn copy(&self, alloc: Global) -> Result<Broker, Memory>
        ensures { IfOk result (λ b. b ≡ self.now) }
    {
        let rack = match &self.rack {
            Some(name) => Some(name.copy(alloc)?),
            None => None,
        };
        Ok(Broker {
            id: self.id,
            rack,
            cap: self.cap,
            state: self.state,
        })
    }
}

/// What a replica of a partition puts on its broker, in the units of the capacities.
#[derive(Clone, Copy, Debug)]
pub struct Loads {
    /// Of the leader, the first member of the replica list.
    pub lead: Res4,
    /// Of every other member. A follower sends nothing to clients, so its NW_OUT is 0.
    pub follow: Res4,
}

/// A partition of a topic.
#[derive(Drop)]
pub struct Part {
    pub topic: Topic,
    /// The number within the topic.
    pub number: u32,
    pub loads: Loads,
    /// Whether the request leaves the topic out: then only what is on lost or demoted brokers
    /// changes.
    pub excluded: bool,
    /// The work of copying one replica, 1 to 1,000.
    pub chunks: u32,
}

impl Part {
    /// The same partition.
    pub fn copy(&self, alloc: Global) -> Result<Part, Memory>
        ensures { IfOk result (λ p. p ≡ self.now) }
    {
        Ok(Part {
            topic: self.topic.copy(alloc)?,
            number: self.number,
            loads: self.loads,
            excluded: self.excluded,
            chunks: self.chunks,
        })
    }
}

/// How many partitions of a topic each broker that may lead is to lead at least.
#[derive(Drop)]
pub struct MinLeaders {
    pub topic: Topic,
    /// 1 to 10,000 in a cluster file.
    pub leaders: u32,
}

impl MinLeaders {
    /// The same topic and number.
    pub fn copy(&self, alloc: Global) -> Result<MinLeaders, Memory>
        ensures { IfOk result (λ m. m ≡ self.now) }
    {
        Ok(MinLeaders {
            topic: self.topic.copy(alloc)?,
            leaders: self.leaders,
        })
    }
}

/// Topics with their least numbers of leaders, in the order in which the file names them.
pub type MinLeadersList = ListOf<MinLeaders>;

impl MinLeadersList {
    /// The same list.
    pub fn copy(&self, alloc: Global) -> Result<Self, Memory>
        ensures { IfOk result (λ l. l ≡ self.now) }
    {
        let mut items = Vec::new(alloc);
        for item in self.as_slice() {
            items.push(item.copy(alloc)?)?;
        }
        Ok(ListOf::new(items))
    }
}

/// The thresholds of the goals, and what a request allows.
#[derive(Drop)]
pub struct Options {
    /// By resource: the share of a capacity that may be used.
    pub limit: [Ratio; 4],
    /// By resource: how far a broker's use may lie above the average.
    pub balance: [Ratio; 4],
    pub replica_balance: Ratio,
    pub leader_balance: Ratio,
    pub topic_balance: Ratio,
    /// How many replicas a broker may hold.
    pub max_replicas: u32,
    /// Whether only leaders may change, moves off lost brokers aside.
    pub leads_only: bool,
    /// How many partitions of a topic each broker is to lead at least.
    pub min_leaders: MinLeadersList,
}

impl Options {
    /// The same options.
    pub fn copy(&self, alloc: Global) -> Result<Options, Memory>
        ensures { IfOk result (λ o. o ≡ self.now) }
    {
        Ok(Options {
            limit: self.limit,
            balance: self.balance,
            replica_balance: self.replica_balance,
            leader_balance: self.leader_balance,
            topic_balance: self.topic_balance,
            max_replicas: self.max_replicas,
            leads_only: self.leads_only,
            min_leaders: self.min_leaders.copy(alloc)?,
        })
    }
}
