// One replica list for each partition.
ghost use Rattle.std.specs.Prelude.{◌≡◌, ◌≢◌, ◌<◌, ◌≤◌, ℕ, List, None, Some, IfOk, IfErr, OnOk, length, slice_set, false, map, []};
ghost use Rattle.plan_terms.specs.Belongs.{Belongs, IsAssignment};
ghost use Rattle.plan_terms.specs.Cluster.{list_of, has, is_known};
ghost use Rattle.plan_terms.specs.Effect.{exchange_at};
ghost use Rattle.plan_terms.specs.Faults.{member_fault, list_fault, lists_fault};

use crate::Case;
use plan_terms::{CaseFault, Limit, Memory, Replicas, copy_lists, has};
use std::alloc::Global;
use std::marker::Model;

/// The greatest number of replicas of a partition.
pub const MAX_REPLICAS: usize = 8;

/// The replica list of each partition, in the order of the partitions. Each has 1 to 8 distinct
/// members.
#[derive(Drop)]
pub struct Assign {
    lists: Vec<Replicas>,
}

impl Model for Assign {
    ghost use Rattle.plan_terms.specs.Belongs.{IsAssignment};
    ghost use Rattle.plan_terms.specs.Cluster.{Lists};

    ghost Value = { Lists };

    ghost view = { λ a. a.lists.items };

    ghost invariant = { λ a. IsAssignment a.lists.items };
}

fn is_known(case: &Case, broker: u32) -> bool
    ensures { result ≡ is_known case.now broker }
{
    case.broker(broker).is_some()
}

fn first_member_fault(case: &Case, part: usize, list: &[u32]) -> Option<CaseFault>
    ensures { result ≡ member_fault case.now part [] list.now }
{
    for (i, broker) in list.iter().enumerate() {
        if !is_known(case, *broker) {
            return Some(CaseFault::UnknownBroker(part, *broker));
        }
        if has(&list[..i], *broker) {
            return Some(CaseFault::DuplicateReplica(part, *broker));
        }
    }
    None
}

#[tactic(auto, unfolding(plan_terms::specs::Faults::list_fault))]
fn list_fault(case: &Case, part: usize, list: &[u32]) -> Option<CaseFault>
    ensures { result ≡ list_fault case.now part list.now }
{
    if list.len() == 0 {
        Some(CaseFault::EmptyReplicas(part))
    } else if list.len() > MAX_REPLICAS {
        Some(CaseFault::OverLimit(Limit::Replicas))
    } else {
        first_member_fault(case, part, list)
    }
}

#[tactic(auto, unfolding(plan_terms::specs::Faults::lists_fault))]
fn check_lists(case: &Case, lists: &[Replicas]) -> Result<(), CaseFault>
    ensures ok { OnOk result (lists_fault case.now lists.now ≡ None) }
    ensures fault { IfErr result (λ e. lists_fault case.now lists.now ≡ Some e) }
{
    for (part, list) in lists.iter().enumerate() {
        if let Some(fault) = list_fault(case, part, list.as_slice()) {
            return Err(fault);
        }
    }
    Ok(())
}

fn replica_lists(alloc: Global, lists: Vec<Vec<u32>>) -> Result<Vec<Replicas>, Memory>
    ensures { IfOk result (λ v. v.items ≡ map (λ list. list.items) lists.items) }
{
    let mut named = Vec::new(alloc);
    for list in lists {
        named.push(Replicas::new(list))?;
    }
    Ok(named)
}

impl Assign {
    /// The assignment of these lists to the case's partitions, or their first fault. Of each list
    /// in order: it is empty; it has more than 8 members; then, member by member, it is unknown, or
    /// it stands there already.
    pub fn new(alloc: Global, case: &Case, lists: Vec<Vec<u32>>) -> Result<Assign, CaseFault>
        requires one_each { length lists.items ≡ length case.now.parts }
        ensures ok { IfOk result (λ a. a ≡ map (λ list. list.items) lists.items) }
        ensures belongs { IfOk result (Belongs case.now) }
        ensures faultless { OnOk result
            (lists_fault case.now (map (λ list. list.items) lists.items) ≡ None) }
        ensures fault { IfErr result
            (λ e. e ≢ CaseFault.Memory
            → lists_fault case.now (map (λ list. list.items) lists.items) ≡ Some e) }
    {
        let _few = case.parts();
        let lists = replica_lists(alloc, lists)?;
        check_lists(case, &lists)?;
        Ok(Assign { lists })
    }

    /// The assignment of these lists: at most 10,000, each of 1 to 8 distinct members.
    pub fn of(lists: Vec<Replicas>) -> Assign
        requires { IsAssignment lists.items }
        ensures { result ≡ lists.items }
    {
        Assign { lists }
    }

    /// The number of lists, at most 10,000.
    pub fn len(&self) -> usize
        ensures value { result ≡ length self.now }
        ensures few { result ≤ 10000 }
    {
        self.lists.len()
    }

    /// The list of a partition.
    pub fn list(&self, part: usize) -> &[u32]
        requires { part < length self.now }
        ensures { result.now ≡ list_of self.now part }
    {
        self.lists[part].as_slice()
    }

    /// All lists, in order.
    pub fn lists(&self) -> &[Replicas]
        ensures value { result.now ≡ self.now }
        ensures assignment { IsAssignment self.now }
    {
        self.lists.as_slice()
    }

    /// The same assignment.
    pub fn copy(&self, alloc: Global) -> Result<Assign, Memory>
        ensures { IfOk result (λ a. a ≡ self.now) }
    {
        Ok(Assign {
            lists: copy_lists(alloc, self.lists.as_slice())?,
        })
    }

    /// Puts a broker that is no member at one place of one list.
    pub fn put(&mut self, part: usize, place: usize, broker: u32)
        requires part { part < length self.old }
        requires place { place < length (list_of self.old part) }
        requires new { has (list_of self.old part) broker ≡ false }
        ensures { self.new
            ≡ slice_set self.old part (slice_set (list_of self.old part) place broker) }
    {
        self.lists[part].put(place, broker);
    }

    /// Exchanges the first member of one list with the member at the place.
    pub fn exchange(&mut self, part: usize, place: usize)
        requires part { part < length self.old }
        requires place { place < length (list_of self.old part) }
        ensures { self.new ≡ slice_set self.old part (exchange_at place (list_of self.old part)) }
    {
        self.lists[part].exchange(place);
    }
}
