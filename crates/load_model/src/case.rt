// Brokers and partitions of a cluster, as one request sees them.
ghost use Rattle.std.specs.Prelude.{◌≡◌, ◌≤◌, ◌<◌, ◌^◌, ◌≢◌, ℕ, None, Some, IfOk, IfErr, IfSome, OnOk, length, map, option_map, position, slice_index, ◌==◌, ◌+◌, if◌then◌else◌};
ghost use Rattle.std.specs.List.{All, count_by};
ghost use Rattle.plan_terms.specs.Cluster.{broker_of, id_at, some_broker};
ghost use Rattle.plan_terms.specs.Faults.{IsCase, case_fault, cluster_fault, leaders_repeat, topics};
ghost use Rattle.plan_terms.specs.Legal.{any_new, is_live, is_lost};
ghost use Rattle.plan_terms.specs.States.{is_demoted, is_new};
ghost use Rattle.load_model.specs.Changed.{with_state, with_loads, with_excluded};
ghost use Rattle.load_model.specs.Places.{AreTopicPlaces, topic_at, topic_of};
ghost use Rattle.plan_terms.specs.Resources.{NW_OUT};

use crate::limits::broken_limit;
use crate::repeats::{broker_ids, leaders_repeat, part_repeat};
use crate::topics::{TopicPlaces, number_topics};
use indexmap::IndexSet;
use plan_terms::{Broker, BrokerState, CaseFault, Loads, Memory, Options, Part};
use std::alloc::Global;
use std::marker::Model;

/// The brokers and the partitions of a cluster, each in their order, and the options of a request.
///
/// A broker's place is its place here, and a topic's that of its first partition among the topics.
/// Ids are distinct, and so are the pairs of topic and number.
#[derive(Drop)]
pub struct Case {
    brokers: Vec<Broker>,
    parts: Vec<Part>,
    options: Options,
    ids: IndexSet<u32>,
    topics: TopicPlaces,
    // How many brokers are being added.
    being_added: usize,
}

impl Model for Case {
    ghost use Rattle.plan_terms.specs.Cluster.{Cluster};
    ghost use Rattle.load_model.specs.Places.{IsIndexed};

    ghost Value = { Cluster };

    ghost view = { λ c. record {
      brokers = c.brokers.items;
      parts = c.parts.items;
      options = c.options;
    } };

    ghost invariant = { λ c. IsIndexed
        (record { brokers = c.brokers.items; parts = c.parts.items; options = c.options })
        c.ids.keys c.topics.places.items c.topics.count c.being_added };
}

// What a case keeps beside its brokers and partitions, or their first fault.
#[tactic(auto, unfolding(plan_terms::specs::Faults::case_fault))]
fn index_of(
    alloc: Global,
    brokers: &[Broker],
    parts: &[Part],
) -> Result<(IndexSet<u32>, TopicPlaces), CaseFault>
    ensures ids { IfOk result (λ kept. kept.0.keys ≡ map (λ b. b.id) brokers.now) }
    ensures places { IfOk result
        (λ kept. AreTopicPlaces parts.now kept.1.places.items kept.1.count) }
    ensures faultless { OnOk result (case_fault brokers.now parts.now ≡ None) }
    ensures fault { IfErr result
        (λ e. e ≢ CaseFault.Memory → case_fault brokers.now parts.now ≡ Some e) }
{
    let topics = number_topics(alloc, parts)?;
    if let Some(limit) = broken_limit(brokers, parts, topics.count) {
        return Err(CaseFault::OverLimit(limit));
    }
    let ids = broker_ids(alloc, brokers)?;
    if let Some(fault) = part_repeat(alloc, parts)? {
        return Err(fault);
    }
    Ok((ids, topics))
}

fn count_new(brokers: &[Broker]) -> usize
    ensures { result ≡ count_by (λ b. is_new b.state) brokers.now }
{
    brokers.iter().filter(|b| b.state.is_new()).count()
}

// The number of brokers that are being added, after one whose state was new or not has another one.
fn recounted(being_added: usize, was_new: bool, is_new: bool) -> usize
    requires counted { (if was_new then 1 else 0) ≤ being_added }
    requires few { being_added ≤ 200 }
    ensures { result + (if was_new then 1 else 0) ≡ being_added + (if is_new then 1 else 0) }
{
    being_added - usize::from(was_new) + usize::from(is_new)
}

fn copy_brokers(alloc: Global, brokers: &[Broker]) -> Result<Vec<Broker>, Memory>
    ensures { IfOk result (λ v. v.items ≡ brokers.now) }
{
    let mut copies = Vec::new(alloc);
    for broker in brokers {
        copies.push(broker.copy(alloc)?)?;
    }
    Ok(copies)
}

fn copy_parts(alloc: Global, parts: &[Part]) -> Result<Vec<Part>, Memory>
    ensures { IfOk result (λ v. v.items ≡ parts.now) }
{
    let mut copies = Vec::new(alloc);
    for part in parts {
        copies.push(part.copy(alloc)?)?;
    }
    Ok(copies)
}

impl Case {
    /// The case of these brokers and partitions, or their first fault: the first limit that is
    /// broken of brokers, topics, partitions, loads, capacities and chunks; then the first broker
    /// that stands twice; then the first partition that stands twice; then the first topic that the
    /// least leaders name twice.
    #[tactic(auto, unfolding(plan_terms::specs::Faults::cluster_fault))]
    pub fn new(
        alloc: Global,
        brokers: Vec<Broker>,
        parts: Vec<Part>,
        options: Options,
    ) -> Result<Case, CaseFault>
        requires followers { All (λ p. slice_index p.loads.follow NW_OUT ≡ 0) parts.items }
        ensures ok { IfOk result
            (λ c. c ≡ record { brokers = brokers.items; parts = parts.items; options = options }) }
        ensures faultless { OnOk result (cluster_fault brokers.items parts.items options ≡ None) }
        ensures fault { IfErr result
            (λ e. e ≢ CaseFault.Memory → cluster_fault brokers.items parts.items options ≡ Some e) }
    {
        let (ids, topics) = index_of(alloc, &brokers, &parts)?;
        if let Some(fault) = leaders_repeat(alloc, options.min_leaders.as_slice())? {
            return Err(fault);
        }
        let being_added = count_new(&brokers);
        Ok(Case {
            brokers,
            parts,
            options,
            ids,
            topics,
            being_added,
        })
    }

    /// The brokers, at most 200.
    #[tactic(auto, using(plan_terms::proofs::FaultLemmas::few_brokers))]
    pub fn brokers(&self) -> &[Broker]
        ensures value { result.now ≡ self.now.brokers }
        ensures few { length self.now.brokers ≤ 200 }
        ensures case { IsCase self.now }
    {
        self.brokers.as_slice()
    }

    /// The partitions, at most 10,000.
    #[tactic(auto, using(plan_terms::proofs::FaultLemmas::few_parts))]
    pub fn parts(&self) -> &[Part]
        ensures value { result.now ≡ self.now.parts }
        ensures few { length self.now.parts ≤ 10000 }
        ensures case { IsCase self.now }
    {
        self.parts.as_slice()
    }

    /// The options of the request.
    pub fn options(&self) -> &Options
        ensures { result.now ≡ self.now.options }
    {
        &self.options
    }

    // The place of the broker of this id, where the ids are consecutive from the first one on.
    fn distance(&self, id: u32) -> Option<usize>
        ensures { IfSome result
            (λ k. (k < length self.now.brokers) × (id_at self.now.brokers k ≡ id)) }
    {
        let brokers = self.brokers.as_slice();
        if brokers.is_empty() || id < brokers[0].id {
            return None;
        }
        let place = (id - brokers[0].id) as usize;
        if place < brokers.len() && brokers[place].id == id {
            return Some(place);
        }
        None
    }

    /// The place of the broker of this id.
    pub fn place(&self, id: u32) -> Option<usize>
        ensures place { result ≡ position (λ b. b.id == id) self.now.brokers }
        ensures only { (k : ℕ) → k < length self.now.brokers → id_at self.now.brokers k ≡ id
            → result ≡ Some k }
    {
        match self.distance(id) {
            Some(place) => Some(place),
            None => self.ids.get_index_of(&id),
        }
    }

    /// The broker of this id.
    pub fn broker(&self, id: u32) -> Option<&Broker>
        ensures { option_map (λ b. b.now) result ≡ broker_of self.now.brokers id }
    {
        let place = self.place(id)?;
        Some(&self.brokers[place])
    }

    /// Whether the broker is one of the case, and not lost.
    pub fn is_live(&self, id: u32) -> bool
        ensures { result ≡ is_live self.now id }
    {
        match self.broker(id) {
            Some(broker) => !broker.state.is_dead(),
            None => false,
        }
    }

    /// Whether the broker is one of the case, and lost.
    pub fn is_lost(&self, id: u32) -> bool
        ensures { result ≡ is_lost self.now id }
    {
        match self.broker(id) {
            Some(broker) => broker.state.is_dead(),
            None => false,
        }
    }

    /// Whether the broker is one of the case, and being added.
    pub fn is_new(&self, id: u32) -> bool
        ensures { result ≡ some_broker (λ b. is_new b.state) self.now id }
    {
        match self.broker(id) {
            Some(broker) => broker.state.is_new(),
            None => false,
        }
    }

    /// Whether the broker is one of the case, and not to lead.
    pub fn is_demoted(&self, id: u32) -> bool
        ensures { result ≡ some_broker (λ b. is_demoted b.state) self.now id }
    {
        match self.broker(id) {
            Some(broker) => broker.state.is_demoted(),
            None => false,
        }
    }

    /// Whether some broker is being added.
    pub fn any_new(&self) -> bool
        ensures { result ≡ any_new self.now }
    {
        self.being_added > 0
    }

    /// The number of topics, at most 1,000.
    pub fn topics(&self) -> usize
        ensures value { result ≡ length (topics self.now.parts) }
        ensures few { result ≤ 1000 }
    {
        self.topics.count
    }

    /// The place of a partition's topic among the topics, which stand in the order of their first
    /// partitions.
    pub fn topic(&self, part: usize) -> usize
        requires { part < length self.now.parts }
        ensures within { result < length (topics self.now.parts) }
        ensures named { topic_at self.now.parts result ≡ topic_of self.now.parts part }
        ensures only { (t : ℕ) → t < length (topics self.now.parts)
            → topic_at self.now.parts t ≡ topic_of self.now.parts part → t ≡ result }
    {
        self.topics.places[part]
    }

    /// Gives the broker at a place another state.
    pub fn set_state(&mut self, broker: usize, state: BrokerState)
        requires { broker < length self.old.brokers }
        ensures { self.new
            ≡ record self.old { brokers = with_state self.old.brokers broker state } }
    {
        let was_new = self.brokers[broker].state.is_new();
        self.brokers[broker].state = state;
        self.being_added = recounted(self.being_added, was_new, state.is_new());
    }

    /// Gives the partition at a place other loads, each below 2^32 and with no NW_OUT of followers.
    pub fn set_loads(&mut self, part: usize, loads: Loads)
        requires part { part < length self.old.parts }
        requires lead { All (λ x. x < 2 ^ 32) loads.lead }
        requires follow { All (λ x. x < 2 ^ 32) loads.follow }
        requires silent { slice_index loads.follow NW_OUT ≡ 0 }
        ensures { self.new ≡ record self.old { parts = with_loads self.old.parts part loads } }
    {
        self.parts[part].loads = loads;
    }

    /// Excludes the topic of the partition at a place, or no longer does.
    pub fn set_excluded(&mut self, part: usize, excluded: bool)
        requires { part < length self.old.parts }
        ensures { self.new
            ≡ record self.old { parts = with_excluded self.old.parts part excluded } }
    {
        self.parts[part].excluded = excluded;
    }

    /// Allows leaders alone to change, moves off lost brokers aside, or no longer does.
    pub fn set_leads_only(&mut self, leads_only: bool)
        ensures { self.new
            ≡ record self.old { options = record self.old.options { leads_only = leads_only } } }
    {
        self.options.leads_only = leads_only;
    }

    /// The same case.
    pub fn copy(&self, alloc: Global) -> Result<Case, Memory>
        ensures { IfOk result (λ c. c ≡ self.now) }
    {
        Ok(Case {
            brokers: copy_brokers(alloc, self.brokers.as_slice())?,
            parts: copy_parts(alloc, self.parts.as_slice())?,
            options: self.options.copy(alloc)?,
            ids: self.ids.clone()?,
            topics: self.topics.copy(alloc)?,
            being_added: self.being_added,
        })
    }
}
