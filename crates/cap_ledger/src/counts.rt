// The numbers of tasks in flight.
ghost use Rattle.std.specs.Prelude.{◌≡◌, ◌+◌, ◌<◌, ◌^◌, IsTrue, IfOk, nat_lt, map};
ghost use Rattle.std.specs.List.{list_all};
ghost use Rattle.std.specs.Option.{option_map};
ghost use Rattle.plan_terms.specs.Belongs.{distinct};
ghost use Rattle.plan_terms.specs.Change.{added};
ghost use Rattle.cap_ledger.specs.Entries.{empty_entry};
ghost use Rattle.cap_ledger.specs.Ledger.{entry_of, adding_of, removing_of, fits_in, IsKnownList, HasRoom, IsCounted, Enters, Leaves, IsEmpty};

use crate::entry::{Entry, enter_all, leave_all, one_if};
use exec_terms::differs;
use plan_terms::{Caps, Memory, has};
use std::alloc::Global;
use std::marker::Model;

/// How many tasks in flight add and remove each broker, move replicas, and change a leader alone. A
/// task goes from one replica list to another; it moves replicas where the two differ as sets, and
/// else changes the leader or the order alone.
#[derive(Drop)]
pub struct Counts {
    // the known brokers, in rising order
    ids: Vec<u32>,
    // beside each broker, what is counted of it
    entries: Vec<Entry>,
    replica: u32,
    leader: u32,
}

impl Model for Counts {
    ghost use Rattle.cap_ledger.specs.Ledger.{Ledger};
    ghost use Rattle.cap_ledger.specs.Entries.{AreInOrder};

    ghost Value = { Ledger };

    ghost view = { λ c. record {
      entries = c.entries.items;
      replica = c.replica;
      leader = c.leader;
    } };

    ghost invariant = { λ c. AreInOrder c.ids.items c.entries.items };
}

impl Counts {
    /// No task is in flight. These brokers are known.
    pub fn new(alloc: Global, brokers: &[u32]) -> Result<Counts, Memory>
        requires { IsTrue (distinct brokers.now) }
        ensures { IfOk result (IsEmpty brokers.now) }
    {
        let mut ids = Vec::from_slice(alloc, brokers)?;
        ids.sort_unstable();
        let entries = empty_entries(alloc, ids.as_slice())?;
        Ok(Counts {
            ids,
            entries,
            replica: 0,
            leader: 0,
        })
    }

    /// Whether the caps leave room for a task from the one list to the other.
    #[tactic(auto, unfolding(crate::specs::Ledger::fits_in))]
    pub fn fits(&self, caps: &Caps, before: &[u32], after: &[u32]) -> bool
        ensures { result ≡ fits_in self.now caps.now before.now after.now }
    {
        if differs(before, after) {
            self.all_may_gain(caps.broker, before, after)
                && self.all_may_lose(caps.broker, before, after)
                && self.replica < caps.cluster
        } else {
            self.leader < caps.leader
        }
    }

    // Whether fewer tasks than the cap add each broker that the second list adds to the first.
    fn all_may_gain(&self, cap: u32, before: &[u32], after: &[u32]) -> bool
        ensures { result
            ≡ list_all (λ b. nat_lt (adding_of self.now b) cap) (added before.now after.now) }
    {
        after
            .iter()
            .filter(|b| !has(before, **b))
            .all(|b| self.adding(*b) < cap)
    }

    // Whether fewer tasks than the cap remove each broker that the second list leaves out.
    fn all_may_lose(&self, cap: u32, before: &[u32], after: &[u32]) -> bool
        ensures { result
            ≡ list_all (λ b. nat_lt (removing_of self.now b) cap) (added after.now before.now) }
    {
        before
            .iter()
            .filter(|b| !has(after, **b))
            .all(|b| self.removing(*b) < cap)
    }

    /// A task from the one list to the other is in flight from now on.
    pub fn enter(&mut self, before: &[u32], after: &[u32])
        requires before { IsKnownList self.old before.now }
        requires after { IsKnownList self.old after.now }
        requires room { HasRoom before.now after.now self.old }
        ensures { Enters before.now after.now self.old self.new }
    {
        enter_all(&mut self.entries, before, after);
        let moves = differs(before, after);
        self.replica += one_if(moves);
        self.leader += one_if(!moves);
    }

    /// A task from the one list to the other is no longer in flight.
    pub fn leave(&mut self, before: &[u32], after: &[u32])
        requires before { IsKnownList self.old before.now }
        requires after { IsKnownList self.old after.now }
        requires counted { IsCounted before.now after.now self.old }
        ensures { Leaves before.now after.now self.old self.new }
    {
        leave_all(&mut self.entries, before, after);
        let moves = differs(before, after);
        self.replica -= one_if(moves);
        self.leader -= one_if(!moves);
    }

    // The entry of the broker.
    fn find(&self, broker: u32) -> Option<&Entry>
        ensures { option_map (λ e. e.now) result ≡ entry_of self.now.entries broker }
    {
        match self.ids.as_slice().binary_search(&broker) {
            Ok(i) => Some(&self.entries[i]),
            Err(_) => None,
        }
    }

    /// How many tasks in flight add the broker; 0 where it is unknown.
    #[tactic(auto, unfolding(crate::specs::Ledger::adding_of))]
    pub fn adding(&self, broker: u32) -> u32
        ensures { result ≡ adding_of self.now broker }
    {
        match self.find(broker) {
            None => 0,
            Some(entry) => entry.adding,
        }
    }

    /// How many tasks in flight remove the broker; 0 where it is unknown.
    #[tactic(auto, unfolding(crate::specs::Ledger::removing_of))]
    pub fn removing(&self, broker: u32) -> u32
        ensures { result ≡ removing_of self.now broker }
    {
        match self.find(broker) {
            None => 0,
            Some(entry) => entry.removing,
        }
    }

    /// How many tasks in flight move replicas.
    pub fn replica_tasks(&self) -> u32
        ensures { result ≡ self.now.replica }
    {
        self.replica
    }

    /// How many tasks in flight change a leader alone.
    pub fn leader_tasks(&self) -> u32
        ensures { result ≡ self.now.leader }
    {
        self.leader
    }
}

// An entry for each broker.
fn empty_entries(alloc: Global, brokers: &[u32]) -> Result<Vec<Entry>, Memory>
    ensures { IfOk result (λ entries. entries.items ≡ map empty_entry brokers.now) }
{
    let mut entries = Vec::new(alloc);
    for broker in brokers {
        entries.push(Entry {
            broker: *broker,
            adding: 0,
            removing: 0,
        })?;
    }
    Ok(entries)
}
