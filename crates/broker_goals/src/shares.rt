// Bounds by an even share of what all brokers hold.
ghost use Rattle.broker_goals.specs.Made.{IsThreshold};
ghost use Rattle.goal_terms.specs.Bands.{units_of, low_of, rounded_up, even};
ghost use Rattle.goal_terms.specs.Limits.{SmallCap, SmallBounds};
ghost use Rattle.std.specs.Prelude.{◌≡◌, ◌+◌, ◌-◌, ◌*◌, ◌/◌, ◌<◌, ◌≤◌, ◌^◌};

use crate::band::{Band, Edges, NewBand};
use crate::excess::unit_count;
use crate::names::Balance;
use load_model::Case;
use plan_terms::{Broker, Ratio};
use std::marker::PhantomData;

/// As far below 1 as the ratio is above it, times its denominator, or 0: at most 2,000.
pub fn low_num(ratio: Ratio) -> u32
    ensures value { result ≡ low_of ratio }
    ensures small { result ≤ 2000 }
{
    (2 * ratio.den()).saturating_sub(ratio.num())
}

/// A count near an even share: between the n-th part of all, times the lower threshold and rounded
/// down, and that times the threshold, rounded up.
#[derive(Drop)]
pub struct Even<T> {
    ratio: Ratio,
    units: usize,
    threshold: PhantomData<T>,
}

impl<T: Balance> Even<T> {
    // The greatest count that is even enough.
    fn most(&self, all: u128) -> u128
        requires { all < 2 ^ 49 }
        ensures value { result
            ≡ rounded_up (all * self.now.ratio.num) (self.now.ratio.den * self.now.units) }
        ensures small { result ≤ 2 ^ 114 }
    {
        let shares = u128::from(self.ratio.den()) * self.units as u128;
        if shares == 0 {
            return 0;
        }
        (all * u128::from(self.ratio.num()) + shares - 1) / shares
    }

    // The least count that is.
    fn least(&self, all: u128) -> u128
        requires { all < 2 ^ 49 }
        ensures { result ≡ all * low_of self.now.ratio / (self.now.ratio.den * self.now.units) }
    {
        let shares = u128::from(self.ratio.den()) * self.units as u128;
        if shares == 0 {
            return 0;
        }
        all * u128::from(low_num(self.ratio)) / shares
    }
}

impl<T: Balance> Band for Even<T> {
    ghost use Rattle.goal_terms.proofs.BandLemmas.{even-small};

    ghost bounds = { λ _ c. even (T.threshold c.options) (units_of c) };

    ghost made_for = { λ b c. IsThreshold b.ratio (T.threshold c.options)
        × (b.units ≡ units_of c) };

    fn edges(&self, _case: &Case, all: u128, _broker: &Broker) -> Edges {
        Edges {
            scale: 1,
            upper: self.most(all),
            lower: self.least(all),
        }
    }

    ghost small_bounds = { λ _ c made _. even-small (T.threshold c.options) (units_of c)
        made.0.small };
}

impl<T: Balance> NewBand for Even<T> {
    fn new(case: &Case) -> Self {
        Even {
            ratio: T::ratio(case.options()),
            units: unit_count(case.brokers()),
            threshold: PhantomData,
        }
    }
}
