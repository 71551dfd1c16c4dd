// The lists of a plan in the making, with what they put on brokers.
ghost use Rattle.std.specs.Prelude.{◌≡◌, ◌<◌, ◌≤◌, ◌^◌, IfOk, IsTrue, bytes_eq, length, slice_index, slice_set, true, false, if◌then◌else◌};
ghost use Rattle.plan_terms.specs.Belongs.{Belongs, IsAssignment};
ghost use Rattle.plan_terms.specs.Cluster.{list_of, has, is_known, id_at};
ghost use Rattle.plan_terms.specs.Effect.{exchange_at};
ghost use Rattle.plan_terms.specs.Faults.{IsCase, topics};
ghost use Rattle.plan_terms.specs.Load.{count, leaders, load, leader_in, potential_out, topic_count, topic_leaders};
ghost use Rattle.load_model.specs.Amounts.{InRange, amount, counts_places, follow_of, lead_of};
ghost use Rattle.load_model.specs.Places.{topic_at};
ghost use Rattle.load_model.specs.Totals.{whole};
ghost use Rattle.plan_terms.specs.Resources.{NW_IN, NW_OUT};

use crate::amounts::Amount;
use crate::table::{Row, Table};
use crate::{Assign, Case};
use plan_terms::Memory;
use std::alloc::Global;
use std::marker::Model;

/// The lists of a plan in the making, which actions change, with the cluster whose loads they put
/// on brokers.
///
/// Brokers, partitions and topics go by their places in the case that the book was made for, which
/// it keeps. What brokers carry, and what all carry together, stands in a table that each change
/// keeps, so no reader looks at the lists.
#[derive(Drop)]
pub struct LoadBook {
    case: Case,
    lists: Assign,
    table: Table,
    totals: Row,
}

impl Model for LoadBook {
    ghost use Rattle.plan_terms.specs.Belongs.{Book};
    ghost use Rattle.load_model.specs.Tables.{IsKept};

    ghost Value = { Book };

    ghost view = { λ b. record { cluster = b.case; lists = b.lists } };

    ghost invariant = { λ b. IsKept b.case b.lists b.table b.totals };
}

impl LoadBook {
    /// The book of these lists, with copies of the case and the lists.
    pub fn new(alloc: Global, case: &Case, lists: &Assign) -> Result<LoadBook, Memory>
        requires { Belongs case.now lists.now }
        ensures { IfOk result (λ b. b ≡ record { cluster = case.now; lists = lists.now }) }
    {
        LoadBook::of(alloc, case.copy(alloc)?, lists.copy(alloc)?)
    }

    /// The book of this case and these lists themselves.
    pub fn of(alloc: Global, case: Case, lists: Assign) -> Result<LoadBook, Memory>
        requires { Belongs case lists }
        ensures { IfOk result (λ b. b ≡ record { cluster = case; lists = lists }) }
    {
        let table = Table::new(alloc, &case, &lists)?;
        let totals = Row::totals(alloc, &case, &lists)?;
        Ok(LoadBook {
            case,
            lists,
            table,
            totals,
        })
    }

    /// Sums afresh what the lists put on each broker. What they put on all together was summed when
    /// the book was made, and no change of the book changes it. Out of memory, the book keeps its
    /// table.
    pub fn resum(&mut self, alloc: Global) -> Result<(), Memory>
        ensures { self.new ≡ self.old }
    {
        self.table = Table::new(alloc, &self.case, &self.lists)?;
        Ok(())
    }

    /// The case that the book was made for.
    pub fn case(&self) -> &Case
        ensures value { result.now ≡ self.now.cluster }
        ensures case { IsCase self.now.cluster }
    {
        let _case = self.case.parts();
        &self.case
    }

    /// The lists as they stand.
    pub fn lists(&self) -> &Assign
        ensures value { result.now ≡ self.now.lists }
        ensures assignment { IsAssignment self.now.lists }
        ensures one_each { length self.now.lists ≡ length self.now.cluster.parts }
    {
        let _assignment = self.lists.lists();
        &self.lists
    }

    /// The case that the book was made for and the lists as they stand, without a copy.
    pub fn into_parts(self) -> (Case, Assign)
        ensures case { result.0 ≡ self.cluster }
        ensures lists { result.1 ≡ self.lists }
    {
        (self.case, self.lists)
    }

    /// The list of a partition.
    pub fn list(&self, part: usize) -> &[u32]
        requires { part < length self.now.lists }
        ensures { result.now ≡ list_of self.now.lists part }
    {
        self.lists.list(part)
    }

    // What a broker carries in all.
    fn amount(&self, kind: Amount, broker: usize) -> u64
        requires broker { broker < length self.now.cluster.brokers }
        requires range { InRange kind self.now.cluster.parts }
        ensures value { result
            ≡ amount kind self.now.cluster.parts (id_at self.now.cluster.brokers broker)
            self.now.lists }
        ensures small { result < 2 ^ 49 }
        ensures few { counts_places kind ≡ true → result ≤ 80000 }
    {
        let _parts = self.case.parts();
        let _assignment = self.lists.lists();
        self.table.amount(&self.case, kind, broker)
    }

    /// The load of a resource on a broker: the leader's of each partition that it leads, the
    /// follower's at each other place. The resources are 0 CPU, 1 NW_IN, 2 NW_OUT, 3 DISK. Below
    /// 2^49.
    pub fn load(&self, broker: usize, res: usize) -> u128
        requires broker { broker < length self.now.cluster.brokers }
        requires res { res < 4 }
        ensures value { result
            ≡ load self.now.cluster res (id_at self.now.cluster.brokers broker) self.now.lists }
        ensures small { result < 2 ^ 49 }
    {
        u128::from(self.amount(Amount::Load(res), broker))
    }

    /// The number of a broker's replicas, at most 80,000.
    pub fn count(&self, broker: usize) -> u64
        requires { broker < length self.now.cluster.brokers }
        ensures value { result ≡ count (id_at self.now.cluster.brokers broker) self.now.lists }
        ensures few { result ≤ 80000 }
    {
        let _one_each = self.lists();
        self.amount(Amount::Replicas, broker)
    }

    /// The number of partitions that a broker leads, at most 80,000.
    pub fn leaders(&self, broker: usize) -> u64
        requires { broker < length self.now.cluster.brokers }
        ensures value { result ≡ leaders (id_at self.now.cluster.brokers broker) self.now.lists }
        ensures few { result ≤ 80000 }
    {
        let _one_each = self.lists();
        self.amount(Amount::Leaders, broker)
    }

    /// What a broker would send to clients if it led each partition of which it is a member: the
    /// leaders' NW_OUT over all its places. Below 2^49.
    pub fn potential_out(&self, broker: usize) -> u128
        requires { broker < length self.now.cluster.brokers }
        ensures value { result
            ≡ potential_out self.now.cluster (id_at self.now.cluster.brokers broker)
            self.now.lists }
        ensures small { result < 2 ^ 49 }
    {
        u128::from(self.amount(Amount::PotentialOut, broker))
    }

    /// The leaders' NW_IN over the partitions that a broker leads. Below 2^49.
    pub fn leader_in(&self, broker: usize) -> u128
        requires { broker < length self.now.cluster.brokers }
        ensures value { result
            ≡ leader_in self.now.cluster (id_at self.now.cluster.brokers broker) self.now.lists }
        ensures small { result < 2 ^ 49 }
    {
        u128::from(self.amount(Amount::LeaderIn, broker))
    }

    /// The number of a broker's replicas in a topic, by the topic's place among the topics. At most
    /// 80,000.
    pub fn topic_count(&self, topic: usize, broker: usize) -> u64
        requires topic { topic < length (topics self.now.cluster.parts) }
        requires broker { broker < length self.now.cluster.brokers }
        ensures value { result
            ≡ topic_count self.now.cluster (topic_at self.now.cluster.parts topic)
            (id_at self.now.cluster.brokers broker) self.now.lists }
        ensures few { result ≤ 80000 }
    {
        self.amount(Amount::OfTopic(topic), broker)
    }

    /// The number of a topic's partitions that a broker leads, by the topic's place among the
    /// topics. At most 80,000.
    pub fn topic_leaders(&self, topic: usize, broker: usize) -> u64
        requires topic { topic < length (topics self.now.cluster.parts) }
        requires broker { broker < length self.now.cluster.brokers }
        ensures value { result
            ≡ topic_leaders self.now.cluster (topic_at self.now.cluster.parts topic)
            (id_at self.now.cluster.brokers broker) self.now.lists }
        ensures few { result ≤ 80000 }
    {
        self.amount(Amount::LedInTopic(topic), broker)
    }

    // What all brokers carry together.
    fn total(&self, kind: Amount) -> u64
        requires { InRange kind self.now.cluster.parts }
        ensures value { result
            ≡ whole (lead_of kind self.now.cluster.parts) (follow_of kind self.now.cluster.parts)
            self.now.cluster.parts self.now.lists }
        ensures small { result < 2 ^ 49 }
        ensures few { counts_places kind ≡ true → result ≤ 80000 }
    {
        let _parts = self.case.parts();
        let _assignment = self.lists.lists();
        self.totals.total(&self.case, kind)
    }

    /// The load of a resource on all brokers together. The lists alone tell it, and no change of
    /// the book changes it. Below 2^49.
    pub fn total_load(&self, res: usize) -> u128
        requires { res < 4 }
        ensures value { result
            ≡ whole (λ p. slice_index p.loads.lead res) (λ p. slice_index p.loads.follow res)
            self.now.cluster.parts self.now.lists }
        ensures small { result < 2 ^ 49 }
    {
        u128::from(self.total(Amount::Load(res)))
    }

    /// The number of all replicas, at most 80,000.
    pub fn total_count(&self) -> u64
        ensures value { result ≡ whole (λ _. 1) (λ _. 1) self.now.cluster.parts self.now.lists }
        ensures few { result ≤ 80000 }
    {
        self.total(Amount::Replicas)
    }

    /// The number of all leaders, at most 80,000.
    pub fn total_leaders(&self) -> u64
        ensures value { result ≡ whole (λ _. 1) (λ _. 0) self.now.cluster.parts self.now.lists }
        ensures few { result ≤ 80000 }
    {
        self.total(Amount::Leaders)
    }

    /// What all brokers would send to clients together, if each led all partitions of which it is a
    /// member. Below 2^49.
    pub fn total_potential_out(&self) -> u128
        ensures value { result
            ≡ whole (λ p. slice_index p.loads.lead NW_OUT) (λ p. slice_index p.loads.lead NW_OUT)
            self.now.cluster.parts self.now.lists }
        ensures small { result < 2 ^ 49 }
    {
        u128::from(self.total(Amount::PotentialOut))
    }

    /// The leaders' NW_IN over all partitions. Below 2^49.
    pub fn total_leader_in(&self) -> u128
        ensures value { result
            ≡ whole (λ p. slice_index p.loads.lead NW_IN) (λ _. 0) self.now.cluster.parts
            self.now.lists }
        ensures small { result < 2 ^ 49 }
    {
        u128::from(self.total(Amount::LeaderIn))
    }

    /// The number of a topic's replicas, by the topic's place among the topics. At most 80,000.
    pub fn total_topic_count(&self, topic: usize) -> u64
        requires { topic < length (topics self.now.cluster.parts) }
        ensures value { result
            ≡ whole (λ p. if bytes_eq p.topic (topic_at self.now.cluster.parts topic) then 1 else 0)
            (λ p. if bytes_eq p.topic (topic_at self.now.cluster.parts topic) then 1 else 0)
            self.now.cluster.parts self.now.lists }
        ensures few { result ≤ 80000 }
    {
        self.total(Amount::OfTopic(topic))
    }

    /// The number of a topic's leaders, by the topic's place among the topics. At most 80,000.
    pub fn total_topic_leaders(&self, topic: usize) -> u64
        requires { topic < length (topics self.now.cluster.parts) }
        ensures value { result
            ≡ whole (λ p. if bytes_eq p.topic (topic_at self.now.cluster.parts topic) then 1 else 0)
            (λ _. 0) self.now.cluster.parts self.now.lists }
        ensures few { result ≤ 80000 }
    {
        self.total(Amount::LedInTopic(topic))
    }

    /// Puts a broker of the case that is no member at one place of one list.
    pub fn put(&mut self, case: &Case, part: usize, place: usize, broker: u32)
        requires part { part < length self.old.lists }
        requires place { place < length (list_of self.old.lists part) }
        requires new { has (list_of self.old.lists part) broker ≡ false }
        requires known { IsTrue (is_known case.now broker) }
        ensures { self.new
            ≡ record self.old {
              lists = slice_set self.old.lists part
                  (slice_set (list_of self.old.lists part) place broker);
            } }
    {
        let _parts = self.case.parts();
        let _assignment = self.lists.lists();
        let old = self.lists.list(part)[place];
        self.table.shift(&self.case, part, place == 0, old, broker);
        self.lists.put(part, place, broker);
    }

    /// Exchanges the first member of one list with the member at the place.
    pub fn exchange(&mut self, case: &Case, part: usize, place: usize)
        requires part { part < length self.old.lists }
        requires place { place < length (list_of self.old.lists part) }
        ensures { self.new
            ≡ record self.old {
              lists = slice_set self.old.lists part
                  (exchange_at place (list_of self.old.lists part));
            } }
    {
        let _parts = self.case.parts();
        let _assignment = self.lists.lists();
        let first = self.lists.list(part)[0];
        let member = self.lists.list(part)[place];
        self.table
            .shift(&self.case, part, place == 0, member, first);
        self.table.shift(&self.case, part, true, first, member);
        self.lists.exchange(part, place);
    }
}
