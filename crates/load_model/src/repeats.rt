// The first member that repeats an earlier one.
ghost use Rattle.std.specs.Prelude.{◌≡◌, ◌≢◌, None, Some, IfOk, OnOk, IfErr, map};
ghost use Rattle.plan_terms.specs.Faults.{broker_repeat, leaders_repeat, part_repeat};

use indexmap::IndexSet;
use plan_terms::{Broker, CaseFault, Memory, MinLeaders, Part};
use std::alloc::Global;

/// The ids of the brokers in order, or the first broker whose id an earlier one has.
#[tactic(auto, unfolding(plan_terms::specs::Faults::broker_repeat))]
pub fn broker_ids(alloc: Global, brokers: &[Broker]) -> Result<IndexSet<u32>, CaseFault>
    ensures ids { IfOk result (λ ids. ids.keys ≡ map (λ b. b.id) brokers.now) }
    ensures once { OnOk result (broker_repeat brokers.now ≡ None) }
    ensures fault { IfErr result (λ e. e ≢ CaseFault.Memory → broker_repeat brokers.now ≡ Some e) }
{
    let mut ids = IndexSet::new(alloc);
    for broker in brokers {
        if !ids.insert(broker.id)? {
            return Err(CaseFault::DuplicateBroker(broker.id));
        }
    }
    Ok(ids)
}

/// The first partition whose topic and number an earlier one has.
#[tactic(auto, unfolding(plan_terms::specs::Faults::part_repeat))]
pub fn part_repeat<'p>(alloc: Global, parts: &'p [Part]) -> Result<Option<CaseFault>, Memory>
    ensures { IfOk result (λ fault. fault ≡ part_repeat parts.now) }
{
    let mut seen: IndexSet<(u32, &'p str)> = IndexSet::new(alloc);
    for (i, part) in parts.iter().enumerate() {
        if !seen.insert((part.number, part.topic.as_str()))? {
            return Ok(Some(CaseFault::DuplicatePartition(i)));
        }
    }
    Ok(None)
}

/// The first member of the least leaders whose topic an earlier one names.
#[tactic(auto, unfolding(plan_terms::specs::Faults::leaders_repeat))]
pub fn leaders_repeat<'m>(
    alloc: Global,
    min_leaders: &'m [MinLeaders],
) -> Result<Option<CaseFault>, Memory>
    ensures { IfOk result (λ fault. fault ≡ leaders_repeat min_leaders.now) }
{
    let mut seen: IndexSet<&'m str> = IndexSet::new(alloc);
    for (i, entry) in min_leaders.iter().enumerate() {
        if !seen.insert(entry.topic.as_str())? {
            return Ok(Some(CaseFault::DuplicateMinLeaders(i)));
        }
    }
    Ok(None)
}
