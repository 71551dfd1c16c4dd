// How many loads there are, and their sums.
ghost use Rattle.std.specs.Prelude.{◌≡◌, ◌<◌, ◌≤◌, ◌+◌, ◌/◌, [], slice_index};
ghost use Rattle.metric_windows.specs.Averages.{by_resource, divided};
ghost use Rattle.plan_terms.specs.Loads.{EachBelow, IsLoads};
ghost use Rattle.metric_windows.specs.Tables.{tally_of, added, with_load, joined, mean, IsTally};

use plan_terms::{Loads, Res4};

/// The number of some loads, and the sum of each of their numbers.
#[derive(Clone, Copy)]
pub struct Tally {
    pub count: u32,
    pub sums: Loads,
}

fn sum4(a: Res4, b: Res4) -> Res4
    requires a { EachBelow 1000000000000000000 a }
    requires b { EachBelow 1000000000000000000 b }
    ensures { result ≡ by_resource (λ r. slice_index a r + slice_index b r) }
{
    [a[0] + b[0], a[1] + b[1], a[2] + b[2], a[3] + b[3]]
}

fn divided4(a: Res4, n: u64) -> Res4
    requires { 0 < n }
    ensures { result ≡ by_resource (λ r. slice_index a r / n) }
{
    [a[0] / n, a[1] / n, a[2] / n, a[3] / n]
}

#[tactic(auto, unfolding(crate::specs::Tables::added))]
fn added(a: Loads, b: Loads) -> Loads
    requires a_lead { EachBelow 1000000000000000000 a.lead }
    requires a_follow { EachBelow 1000000000000000000 a.follow }
    requires b_lead { EachBelow 1000000000000000000 b.lead }
    requires b_follow { EachBelow 1000000000000000000 b.follow }
    ensures { result ≡ added a b }
{
    Loads {
        lead: sum4(a.lead, b.lead),
        follow: sum4(a.follow, b.follow),
    }
}

#[tactic(auto, unfolding(crate::specs::Averages::divided))]
fn divided(a: Loads, n: u64) -> Loads
    requires { 0 < n }
    ensures { result ≡ divided a n }
{
    Loads {
        lead: divided4(a.lead, n),
        follow: divided4(a.follow, n),
    }
}

impl Tally {
    /// The tally of no loads.
    #[tactic(auto, unfolding(crate::specs::Averages::total_of))]
    pub fn none() -> Self
        ensures value { result ≡ tally_of [] }
        ensures tally { IsTally result }
    {
        Tally {
            count: 0,
            sums: Loads {
                lead: [0, 0, 0, 0],
                follow: [0, 0, 0, 0],
            },
        }
    }

    /// One load more.
    #[tactic(auto, unfolding(crate::specs::Tables::added))]
    pub fn with(self, loads: Loads) -> Self
        requires few { self.count ≤ 1000000 }
        requires tally { IsTally self }
        requires loads { IsLoads loads }
        ensures value { result ≡ with_load self loads }
        ensures tally { IsTally result }
    {
        Tally {
            count: self.count + 1,
            sums: added(self.sums, loads),
        }
    }

    /// The loads of both.
    #[tactic(auto, unfolding(crate::specs::Tables::added))]
    pub fn and(self, other: Tally) -> Self
        requires few { self.count ≤ 1000000 }
        requires other_few { other.count ≤ 1000000 }
        requires tally { IsTally self }
        requires other_tally { IsTally other }
        ensures value { result ≡ joined self other }
        ensures tally { IsTally result }
    {
        Tally {
            count: self.count + other.count,
            sums: added(self.sums, other.sums),
        }
    }

    /// The average of each number, rounded down.
    #[tactic(auto, unfolding(crate::specs::Averages::divided))]
    pub fn mean(self) -> Loads
        requires some { 0 < self.count }
        requires tally { IsTally self }
        ensures value { result ≡ mean self }
        ensures loads { IsLoads result }
    {
        divided(self.sums, u64::from(self.count))
    }
}
