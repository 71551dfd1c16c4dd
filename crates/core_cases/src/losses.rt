// Which brokers are lost, and since when.
ghost use Rattle.std.specs.Prelude.{◌≡◌, IfOk};
ghost use Rattle.std.specs.List.{list_any};
ghost use Rattle.plan_terms.specs.Cluster.{has};
ghost use Rattle.core_terms.specs.Looks.{is_missed, lost_since, moment_since};

use load_model::{Assign, Case};
use plan_terms::{Broker, Memory, Replicas, has};
use std::alloc::Global;

// The moment beside a broker, else now.
fn moment_since(since: &[(u32, u64)], now: u64, broker: u32) -> u64
    ensures { result ≡ moment_since since.now now broker }
{
    match since.iter().find(|loss| loss.0 == broker) {
        Some(loss) => loss.1,
        None => now,
    }
}

// Whether a list names the broker.
fn is_named(lists: &[Replicas], broker: u32) -> bool
    ensures { result ≡ list_any (λ list. has list broker) lists.now }
{
    lists.iter().any(|list| has(list.as_slice(), broker))
}

// Whether the broker is lost and a list names it.
fn is_missed(lists: &[Replicas], broker: &Broker) -> bool
    ensures { result ≡ is_missed lists.now broker.now }
{
    broker.state.is_dead() && is_named(lists, broker.id)
}

// The broker, with the moment that it had, else with now.
fn loss_of(since: &[(u32, u64)], now: u64, broker: &Broker) -> (u32, u64)
    ensures { result ≡ (broker.now.id, moment_since since.now now broker.now.id) }
{
    (broker.id, moment_since(since, now, broker.id))
}

/// The lost brokers that a list names, in the order of the cluster, each with the moment that it
/// had before, else with `now`. Moments are in milliseconds.
#[tactic(auto, unfolding(core_terms::specs::Looks::lost_since))]
pub fn lost_since(
    alloc: Global,
    case: &Case,
    lists: &Assign,
    since: &[(u32, u64)],
    now: u64,
) -> Result<Vec<(u32, u64)>, Memory>
    ensures { IfOk result (λ v. v.items ≡ lost_since case.now lists.now since.now now) }
{
    let lists = lists.lists();
    Ok(
        case.brokers()
            .iter()
            .filter(|broker| is_missed(lists, broker))
            .map(|broker| loss_of(since, now, broker))
            .collect(alloc)?,
    )
}
