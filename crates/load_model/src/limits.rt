// The limits of clusters.
ghost use Rattle.std.specs.Prelude.{◌≡◌, length, nat_le};
ghost use Rattle.std.specs.List.{list_any};
ghost use Rattle.plan_terms.specs.Faults.{topics, is_heavy, is_large, has_bad_chunks, broken_limit};

use plan_terms::{Broker, Limit, Part};

/// The greatest number of brokers, of topics and of partitions.
pub const MAX_BROKERS: usize = 200;

pub const MAX_TOPICS: usize = 1_000;

pub const MAX_PARTS: usize = 10_000;

// Whether some number is at least so great.
fn any_from(numbers: &[u64], least: u64) -> bool
    ensures { result ≡ list_any (λ x. nat_le least x) numbers.now }
{
    numbers.iter().any(|x| *x >= least)
}

fn is_heavy(part: &Part) -> bool
    ensures { result ≡ is_heavy part.now }
{
    any_from(&part.loads.lead, 1 << 32) || any_from(&part.loads.follow, 1 << 32)
}

fn is_large(broker: &Broker) -> bool
    ensures { result ≡ is_large broker.now }
{
    any_from(&broker.cap, 1 << 40)
}

fn has_bad_chunks(part: &Part) -> bool
    ensures { result ≡ has_bad_chunks part.now }
{
    part.chunks == 0 || part.chunks > 1000
}

fn any_heavy(parts: &[Part]) -> bool
    ensures { result ≡ list_any is_heavy parts.now }
{
    parts.iter().any(is_heavy)
}

fn any_large(brokers: &[Broker]) -> bool
    ensures { result ≡ list_any is_large brokers.now }
{
    brokers.iter().any(is_large)
}

fn any_bad_chunks(parts: &[Part]) -> bool
    ensures { result ≡ list_any has_bad_chunks parts.now }
{
    parts.iter().any(has_bad_chunks)
}

/// The first limit that is broken by brokers and partitions, where `count` is the number of topics.
#[tactic(auto, unfolding(plan_terms::specs::Faults::broken_limit))]
pub fn broken_limit(brokers: &[Broker], parts: &[Part], count: usize) -> Option<Limit>
    requires { count ≡ length (topics parts.now) }
    ensures { result ≡ broken_limit brokers.now parts.now }
{
    if brokers.len() > MAX_BROKERS {
        Some(Limit::Brokers)
    } else if count > MAX_TOPICS {
        Some(Limit::Topics)
    } else if parts.len() > MAX_PARTS {
        Some(Limit::Partitions)
    } else if any_heavy(parts) {
        Some(Limit::Load)
    } else if any_large(brokers) {
        Some(Limit::Capacity)
    } else if any_bad_chunks(parts) {
        Some(Limit::Chunks)
    } else {
        None
    }
}
