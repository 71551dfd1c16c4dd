// Bounds by what all brokers use of a resource.
ghost use Rattle.broker_goals.specs.Made.{IsThreshold};
ghost use Rattle.broker_goals.specs.Uses.{use_bounds};
ghost use Rattle.goal_terms.specs.Bands.{whole_cap, low_of};
ghost use Rattle.goal_terms.specs.Goals.{ratio_at};
ghost use Rattle.goal_terms.specs.Limits.{SmallCap, SmallBounds};
ghost use Rattle.goal_terms.specs.PerBroker.{unit_brokers};
ghost use Rattle.plan_terms.specs.Faults.{IsCase};
ghost use Rattle.std.specs.List.{sum_by};
ghost use Rattle.std.specs.Prelude.{◌≡◌, ◌-◌, ◌*◌, ◌<◌, ◌≤◌, ◌^◌, slice_index};

use crate::band::{Band, Edges, NewBand};
use crate::names::{Floor, Floored, Floorless, Resource};
use crate::shares::low_num;
use load_model::Case;
use plan_terms::{Broker, Options, Ratio};
use std::marker::PhantomData;

// The threshold of a resource, for the balance of its use.
fn balance_at(options: &Options, place: usize) -> Ratio
    requires { place < 4 }
    ensures { result ≡ ratio_at options.now.balance place }
{
    options.balance[place]
}

// The capacities of the brokers that aren't lost, added up.
fn whole_cap_of(case: &Case, place: usize) -> u64
    requires { place < 4 }
    ensures { result ≡ whole_cap place case.now }
{
    let mut whole = 0u64;
    for broker in case.brokers() {
        if !broker.state.is_dead() {
            whole += broker.cap[place];
        }
    }
    whole
}

// The capacities of all brokers, times a denominator.
fn use_scale(case: &Case, whole: u64, ratio: Ratio, place: usize) -> u64
    requires { whole ≡ whole_cap place case.now }
    ensures { result ≡ whole * ratio.den }
{
    let _brokers = case.brokers();
    whole * u64::from(ratio.den())
}

// Part of what all brokers carry, times a capacity.
fn part_of(num: u32, all: u128, cap: u64) -> u128
    requires num { num ≤ 9999999 }
    requires all { all < 2 ^ 49 }
    requires cap { cap < 1099511627776 }
    ensures value { result ≡ num * all * cap }
    ensures small { result ≤ 2 ^ 114 }
{
    u128::from(num) * all * u128::from(cap)
}

/// A use of a resource not far from that of all brokers together.
#[derive(Drop)]
pub struct Use<R, F> {
    ratio: Ratio,
    whole: u64,
    names: PhantomData<(R, F)>,
}

/// A use near that of all brokers together.
pub type NearUse<R> = Use<R, Floored>;

/// A use not far above that of all brokers together.
pub type BelowUse<R> = Use<R, Floorless>;

impl<R: Resource, F: Floor> Band for Use<R, F> {
    ghost use Rattle.broker_goals.specs.Uses.{use_bounds-small};
    ghost use Rattle.goal_terms.proofs.CaseLemmas.{Limits-case};

    ghost bounds = { λ _ c. use_bounds F.HAS_FLOOR
        (ratio_at c.options.balance R.resource) R.resource (whole_cap R.resource c) };

    ghost made_for = { λ b c. IsThreshold b.ratio (ratio_at c.options.balance R.resource)
        × (b.whole ≡ whole_cap R.resource c) };

    fn edges(&self, case: &Case, all: u128, broker: &Broker) -> Edges {
        let place = R::place();
        let cap = broker.cap[place];
        let lower = if F::HAS_FLOOR {
            part_of(low_num(self.ratio), all, cap)
        } else {
            0
        };
        Edges {
            scale: use_scale(case, self.whole, self.ratio, place),
            upper: part_of(self.ratio.num(), all, cap),
            lower,
        }
    }

    ghost small_bounds = { λ _ c made is_case. use_bounds-small F.HAS_FLOOR
        (ratio_at c.options.balance R.resource) R.resource c made.0.small (Limits-case c is_case) };
}

impl<R: Resource, F: Floor> NewBand for Use<R, F> {
    fn new(case: &Case) -> Self {
        Use {
            ratio: balance_at(case.options(), R::place()),
            whole: whole_cap_of(case, R::place()),
            names: PhantomData,
        }
    }
}
