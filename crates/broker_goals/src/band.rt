// The bounds of quantities.
ghost use Rattle.goal_terms.specs.Limits.{SmallCap, SmallBounds};
ghost use Rattle.goal_terms.specs.PerBroker.{Bounds};
ghost use Rattle.plan_terms.specs.Cluster.{Cluster};
ghost use Rattle.plan_terms.specs.Faults.{IsCase};
ghost use Rattle.std.specs.Prelude.{◌≡◌, ◌<◌, ◌≤◌, ◌^◌};

use load_model::Case;
use plan_terms::Broker;

/// The bounds of one broker: the least and the greatest that its quantity may be, times the scale.
#[derive(Clone, Copy)]
pub struct Edges {
    pub scale: u64,
    pub upper: u128,
    pub lower: u128,
}

/// How great a quantity of a broker may be, and how small.
pub trait Band {
    /// The bounds of the brokers of a cluster.
    ghost bounds: { Self → Cluster → Bounds };

    /// The band was made for the cluster.
    ghost made_for: { Self → Cluster → Type 0 };

    /// The bounds of one broker, where all brokers carry `all` together.
    fn edges(&self, case: &Case, all: u128, broker: &Broker) -> Edges
        // What it is asked of.
        requires made { made_for self.now case.now }
        requires all { all < 2 ^ 49 }
        requires cap { SmallCap broker.now }
        // The bounds of the definition, at most 2^114.
        ensures scale { result.scale ≡ (bounds self.now case.now).scale }
        ensures upper { result.upper ≡ (bounds self.now case.now).upper all broker.now }
        ensures lower { result.lower ≡ (bounds self.now case.now).lower all broker.now }
        ensures small { result.upper ≤ 2 ^ 114 };

    /// The products in an excess fit 120 bits.
    ghost small_bounds: { (b : Self) (c : Cluster) → made_for b c → IsCase c
        → SmallBounds (bounds b c) };
}

/// A band that is made from the case alone.
pub trait NewBand: Band + Sized {
    /// The band for the case.
    fn new(case: &Case) -> Self
        ensures { Self.made_for result case.now };
}
