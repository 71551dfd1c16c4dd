// The quantities of brokers.
ghost use Rattle.goal_terms.specs.Limits.{SmallLoads, SmallWeights};
ghost use Rattle.goal_terms.specs.Quantity.{Weights, weight_of, quantity, total, replica_weights, leader_weights, load_weights, potential_out_weights, leader_in_weights};
ghost use Rattle.plan_terms.specs.Belongs.{IsBookOf};
ghost use Rattle.plan_terms.specs.Cluster.{Cluster, id_at};
ghost use Rattle.plan_terms.specs.declared.cluster.Part.{Part};
ghost use Rattle.std.specs.Prelude.{◌≡◌, ◌<◌, length, if◌then◌else◌};

use crate::names::Resource;
use load_model::{Case, LoadBook};
use plan_terms::{Part, resources};
use std::marker::PhantomData;

/// A quantity of brokers: what each place of a partition's list adds to that of its broker.
pub trait Amount {
    /// What the first place of a list carries, and each other place.
    ghost weights: { Self → Weights };

    /// The amount was made for the cluster.
    ghost made_for: { Self → Cluster → Type 0 };

    /// What the broker at a place carries in all.
    fn amount(&self, case: &Case, book: &LoadBook, broker: usize) -> u128
        requires made { made_for self.now case.now }
        requires belongs { IsBookOf case.now book.now }
        requires broker { broker < length case.now.brokers }
        ensures { result
            ≡ quantity (weights self.now) case.now.parts (id_at case.now.brokers broker)
            book.now.lists };

    /// What all brokers carry together, lost ones too.
    fn total(&self, case: &Case, book: &LoadBook) -> u128
        requires made { made_for self.now case.now }
        requires belongs { IsBookOf case.now book.now }
        ensures { result ≡ total (weights self.now) case.now.parts book.now.lists };

    /// What one replica of a partition carries, as the leader or as a follower.
    fn weight(&self, part: &Part, leads: bool) -> u64
        ensures { result ≡ weight_of (weights self.now) part.now leads };

    /// No place carries more than a load value may be.
    ghost small_weights: { (q : Self) (p : Part) → SmallLoads p → SmallWeights (weights q) p };
}

/// An amount that needs nothing but its name.
pub trait NewAmount: Amount + Sized {
    /// The amount.
    fn new() -> Self
        ensures { (c : Cluster) → Self.made_for result c };
}

/// How many replicas a broker holds.
#[derive(Drop)]
pub struct Replicas;

impl Amount for Replicas {
    ghost use Rattle.goal_terms.proofs.BoundLemmas.{replica-small};

    ghost weights = { λ _. replica_weights };

    ghost made_for = { λ _ _. Unit {0} };

    #[tactic(auto, using(plan_terms::proofs::SameLemmas::brokers_same))]
    fn amount(&self, _case: &Case, book: &LoadBook, broker: usize) -> u128 {
        u128::from(book.count(broker))
    }

    fn total(&self, _case: &Case, book: &LoadBook) -> u128 {
        u128::from(book.total_count())
    }

    fn weight(&self, _part: &Part, _leads: bool) -> u64 {
        1
    }

    ghost small_weights = { λ _ p _. replica-small p };
}

impl NewAmount for Replicas {
    fn new() -> Self {
        Replicas
    }
}

/// How many partitions a broker leads.
#[derive(Drop)]
pub struct Leaders;

impl Amount for Leaders {
    ghost use Rattle.goal_terms.proofs.BoundLemmas.{leader-small};

    ghost weights = { λ _. leader_weights };

    ghost made_for = { λ _ _. Unit {0} };

    #[tactic(auto, using(plan_terms::proofs::SameLemmas::brokers_same))]
    fn amount(&self, _case: &Case, book: &LoadBook, broker: usize) -> u128 {
        u128::from(book.leaders(broker))
    }

    fn total(&self, _case: &Case, book: &LoadBook) -> u128 {
        u128::from(book.total_leaders())
    }

    fn weight(&self, _part: &Part, leads: bool) -> u64 {
        u64::from(leads)
    }

    ghost small_weights = { λ _ p _. leader-small p };
}

impl NewAmount for Leaders {
    fn new() -> Self {
        Leaders
    }
}

/// The load of a resource.
#[derive(Drop)]
pub struct Load<R> {
    resource: PhantomData<R>,
}

impl<R: Resource> Amount for Load<R> {
    ghost use Rattle.goal_terms.proofs.BoundLemmas.{load-small};

    ghost weights = { λ _. load_weights R.resource };

    ghost made_for = { λ _ _. Unit {0} };

    #[tactic(auto, using(plan_terms::proofs::SameLemmas::brokers_same))]
    fn amount(&self, _case: &Case, book: &LoadBook, broker: usize) -> u128 {
        book.load(broker, R::place())
    }

    fn total(&self, _case: &Case, book: &LoadBook) -> u128 {
        book.total_load(R::place())
    }

    fn weight(&self, part: &Part, leads: bool) -> u64 {
        if leads {
            part.loads.lead[R::place()]
        } else {
            part.loads.follow[R::place()]
        }
    }

    ghost small_weights = { λ _ p h. load-small R.resource p h };
}

impl<R: Resource> NewAmount for Load<R> {
    fn new() -> Self {
        Load {
            resource: PhantomData,
        }
    }
}

/// What a broker would send to clients if it led all partitions of which it is a member.
#[derive(Drop)]
pub struct PotentialOut;

impl Amount for PotentialOut {
    ghost use Rattle.goal_terms.proofs.BoundLemmas.{potential_out-small};

    ghost weights = { λ _. potential_out_weights };

    ghost made_for = { λ _ _. Unit {0} };

    #[tactic(auto, using(plan_terms::proofs::SameLemmas::brokers_same))]
    fn amount(&self, _case: &Case, book: &LoadBook, broker: usize) -> u128 {
        book.potential_out(broker)
    }

    fn total(&self, _case: &Case, book: &LoadBook) -> u128 {
        book.total_potential_out()
    }

    fn weight(&self, part: &Part, _leads: bool) -> u64 {
        part.loads.lead[resources::NW_OUT]
    }

    ghost small_weights = { λ _ p h. potential_out-small p h };
}

impl NewAmount for PotentialOut {
    fn new() -> Self {
        PotentialOut
    }
}

/// What a broker receives from clients as the leader of partitions.
#[derive(Drop)]
pub struct LeaderIn;

impl Amount for LeaderIn {
    ghost use Rattle.goal_terms.proofs.BoundLemmas.{leader_in-small};

    ghost weights = { λ _. leader_in_weights };

    ghost made_for = { λ _ _. Unit {0} };

    #[tactic(auto, using(plan_terms::proofs::SameLemmas::brokers_same))]
    fn amount(&self, _case: &Case, book: &LoadBook, broker: usize) -> u128 {
        book.leader_in(broker)
    }

    fn total(&self, _case: &Case, book: &LoadBook) -> u128 {
        book.total_leader_in()
    }

    fn weight(&self, part: &Part, leads: bool) -> u64 {
        if leads {
            part.loads.lead[resources::NW_IN]
        } else {
            0
        }
    }

    ghost small_weights = { λ _ p h. leader_in-small p h };
}

impl NewAmount for LeaderIn {
    fn new() -> Self {
        LeaderIn
    }
}
