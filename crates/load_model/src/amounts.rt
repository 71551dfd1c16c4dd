// What brokers carry, added up over the lists.
ghost use Rattle.std.specs.Prelude.{◌≡◌, ◌<◌, ◌^◌, length, if◌then◌else◌};
ghost use Rattle.load_model.specs.Amounts.{InRange, lead_at, follow_at};

use crate::Case;
use plan_terms::resources;

/// What is added up over a broker's places.
#[derive(Clone, Copy)]
pub enum Amount {
    /// The load of a resource: the leader's at first places, the follower's at others.
    Load(usize),
    /// One for each place.
    Replicas,
    /// One for each first place.
    Leaders,
    /// The leader's NW_OUT at every place.
    PotentialOut,
    /// The leader's NW_IN at first places.
    LeaderIn,
    /// One for each place in a topic, by the topic's place.
    OfTopic(usize),
    /// One for each first place in a topic, by the topic's place.
    LedInTopic(usize),
}

/// What the first place of a partition's list carries, and what each other place.
#[derive(Clone, Copy)]
pub struct Weights {
    pub lead: u64,
    pub follow: u64,
}

fn one_if(test: bool) -> u64
    ensures { result ≡ (if test then 1 else 0) }
{
    if test { 1 } else { 0 }
}

fn evenly(weight: u64) -> Weights
    ensures { result ≡ record { lead = weight; follow = weight } }
{
    Weights {
        lead: weight,
        follow: weight,
    }
}

fn at_first(weight: u64) -> Weights
    ensures { result ≡ record { lead = weight; follow = 0 } }
{
    Weights {
        lead: weight,
        follow: 0,
    }
}

/// What the places of a partition's list carry.
pub fn weights_at(case: &Case, kind: Amount, part: usize) -> Weights
    requires range { InRange kind case.now.parts }
    requires part { part < length case.now.parts }
    ensures lead { result.lead ≡ lead_at kind case.now.parts part }
    ensures follow { result.follow ≡ follow_at kind case.now.parts part }
    ensures small_lead { result.lead < 2 ^ 32 }
    ensures small_follow { result.follow < 2 ^ 32 }
{
    let loads = case.parts()[part].loads;
    match kind {
        Amount::Load(res) => Weights {
            lead: loads.lead[res],
            follow: loads.follow[res],
        },
        Amount::Replicas => evenly(1),
        Amount::Leaders => at_first(1),
        Amount::PotentialOut => evenly(loads.lead[resources::NW_OUT]),
        Amount::LeaderIn => at_first(loads.lead[resources::NW_IN]),
        Amount::OfTopic(topic) => evenly(one_if(case.topic(part) == topic)),
        Amount::LedInTopic(topic) => at_first(one_if(case.topic(part) == topic)),
    }
}
