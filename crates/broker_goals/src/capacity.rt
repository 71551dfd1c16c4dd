// Bounds by what a broker may hold.
ghost use Rattle.broker_goals.specs.Made.{IsThreshold};
ghost use Rattle.goal_terms.specs.Bands.{at_most, within_capacity};
ghost use Rattle.goal_terms.specs.Goals.{ratio_at};
ghost use Rattle.goal_terms.specs.Limits.{SmallCap, SmallBounds};
ghost use Rattle.std.specs.Prelude.{◌≡◌, ◌*◌, ◌<◌, ◌≤◌, ◌^◌, slice_index};

use crate::band::{Band, Edges, NewBand};
use crate::names::Resource;
use load_model::Case;
use plan_terms::{Broker, Options, Ratio};
use std::marker::PhantomData;

// The threshold of a resource, for its use.
fn limit_at(options: &Options, place: usize) -> Ratio
    requires { place < 4 }
    ensures { result ≡ ratio_at options.now.limit place }
{
    options.limit[place]
}

// That share of a capacity, times its denominator.
fn share_of(limit: Ratio, cap: u64) -> u128
    requires { cap < 1099511627776 }
    ensures value { result ≡ limit.num * cap }
    ensures small { result ≤ 2 ^ 114 }
{
    u128::from(limit.num()) * u128::from(cap)
}

/// At most as many replicas as a broker may hold.
#[derive(Drop)]
pub struct AtMost {
    most: u32,
}

impl Band for AtMost {
    ghost use Rattle.goal_terms.proofs.BandLemmas.{at_most-small};

    ghost bounds = { λ _ c. at_most c.options.max_replicas };

    ghost made_for = { λ b c. b.most ≡ c.options.max_replicas };

    fn edges(&self, _case: &Case, _all: u128, _broker: &Broker) -> Edges {
        Edges {
            scale: 1,
            upper: u128::from(self.most),
            lower: 0,
        }
    }

    ghost small_bounds = { λ _ c _ _. at_most-small c.options.max_replicas };
}

impl NewBand for AtMost {
    fn new(case: &Case) -> Self {
        AtMost {
            most: case.options().max_replicas,
        }
    }
}

/// At most the share of the broker's capacity that may be used.
#[derive(Drop)]
pub struct WithinCapacity<R> {
    limit: Ratio,
    resource: PhantomData<R>,
}

impl<R: Resource> Band for WithinCapacity<R> {
    ghost use Rattle.goal_terms.proofs.BandLemmas.{within_capacity-small};

    ghost bounds = { λ _ c. within_capacity (ratio_at c.options.limit R.resource) R.resource };

    ghost made_for = { λ b c. IsThreshold b.limit (ratio_at c.options.limit R.resource) };

    fn edges(&self, _case: &Case, _all: u128, broker: &Broker) -> Edges {
        Edges {
            scale: u64::from(self.limit.den()),
            upper: share_of(self.limit, broker.cap[R::place()]),
            lower: 0,
        }
    }

    ghost small_bounds = { λ _ c made _. within_capacity-small (ratio_at c.options.limit R.resource)
        R.resource made.small };
}

impl<R: Resource> NewBand for WithinCapacity<R> {
    fn new(case: &Case) -> Self {
        WithinCapacity {
            limit: limit_at(case.options(), R::place()),
            resource: PhantomData,
        }
    }
}
