// A new executor of a case.
ghost use Rattle.std.specs.Prelude.{◌≡◌, ◌≤◌, IfOk, map};
ghost use Rattle.std.specs.List.{filter};
ghost use Rattle.plan_terms.specs.Belongs.{Belongs};
ghost use Rattle.plan_terms.specs.Faults.{IsCase};
ghost use Rattle.plan_terms.specs.States.{is_dead};
ghost use Rattle.exec_terms.specs.Runs.{opening};

use crate::Exec;
use load_model::{Assign, Case};
use plan_terms::{Broker, Caps, Memory, Part};
use std::alloc::Global;

// How many copies a replica of each partition takes.
fn chunk_counts(alloc: Global, parts: &[Part]) -> Result<Vec<u32>, Memory>
    ensures { IfOk result (λ counts. counts.items ≡ map (λ p. p.chunks) parts.now) }
{
    let mut counts = Vec::new(alloc);
    for part in parts {
        counts.push(part.chunks)?;
    }
    Ok(counts)
}

// The ids of the brokers.
fn broker_ids(alloc: Global, brokers: &[Broker]) -> Result<Vec<u32>, Memory>
    ensures { IfOk result (λ ids. ids.items ≡ map (λ b. b.id) brokers.now) }
{
    let mut ids = Vec::new(alloc);
    for broker in brokers {
        ids.push(broker.id)?;
    }
    Ok(ids)
}

// The ids of the brokers that are lost.
fn dead_ids(alloc: Global, brokers: &[Broker]) -> Result<Vec<u32>, Memory>
    ensures { IfOk result
        (λ ids. ids.items ≡ map (λ b. b.id) (filter (λ b. is_dead b.state) brokers.now)) }
{
    let mut ids = Vec::new(alloc);
    for broker in brokers {
        if broker.state.is_dead() {
            ids.push(broker.id)?;
        }
    }
    Ok(ids)
}

/// An executor of the case with these lists, without an execution. Its brokers are the case's, and
/// those that are lost are dead.
pub fn opened(alloc: Global, case: &Case, caps: Caps, lists: &Assign) -> Result<Exec, Memory>
    requires broker_cap { 1 ≤ caps.broker }
    requires cluster_cap { 1 ≤ caps.cluster }
    requires leader_cap { 1 ≤ caps.leader }
    requires lists { Belongs case.now lists.now }
    ensures exec { IfOk result (λ exec. exec ≡ opening case.now lists.now caps) }
    ensures case { IfOk result (λ _. IsCase case.now) }
{
    let chunks = chunk_counts(alloc, case.parts())?;
    let brokers = broker_ids(alloc, case.brokers())?;
    let dead = dead_ids(alloc, case.brokers())?;
    Exec::new(alloc, lists, &chunks, caps, &brokers, &dead)
}
