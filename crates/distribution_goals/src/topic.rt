// The goal that each topic's replicas are spread evenly.
ghost use Rattle.goal_terms.specs.Bands.{units_of, even};
ghost use Rattle.goal_terms.specs.Heats.{heat_at_id};
ghost use Rattle.goal_terms.specs.Limits.{SmallLoads, SmallWeights};
ghost use Rattle.goal_terms.specs.PerBroker.{unit_brokers, broker_excess, per_broker};
ghost use Rattle.goal_terms.specs.PerTopic.{topic_excesses, per_topic, first_topic, replica_rule, second_topic, topic_heat};
ghost use Rattle.goal_terms.specs.Quantity.{weight_of, quantity, topic_weights};
ghost use Rattle.goal_terms.specs.Rooms.{free};
ghost use Rattle.goal_terms.specs.Sides.{excess_with};
ghost use Rattle.load_model.specs.Places.{topic_at};
ghost use Rattle.plan_terms.specs.Belongs.{IsBookOf};
ghost use Rattle.plan_terms.specs.Cluster.{Cluster, id_at};
ghost use Rattle.plan_terms.specs.Faults.{topics};
ghost use Rattle.plan_terms.specs.Fits.{fits};
ghost use Rattle.plan_terms.specs.Goal.{Accepts, Lessens};
ghost use Rattle.std.specs.List.{list_any};
ghost use Rattle.std.specs.Prelude.{◌≡◌, ◌+◌, ◌*◌, ◌<◌, ◌≤◌, ◌^◌, ◌↔◌, ◌++◌, ◌∷◌, [], true, false, None, IfOk, IsTrue, OnOk, ℕ, bytes_eq, get_or, length, map, nat_lt, if◌then◌else◌};

use broker_goals::{
    Amount, Balance, Band, Even, NewBand, amount_at, excess_at_place, first_topic_place,
    second_topic_place, sides_of, topics_of, total_of, unit_count, unit_excess, unit_place,
};
use goal_terms::{Heat, Room};
use load_model::{Case, LoadBook};
use move_actions::Goal;
use plan_terms::{Action, Memory, Options, Part, Ratio, Topic};
use std::alloc::Global;

/// The threshold for the replicas of a topic.
pub struct TopicBalance;

impl Balance for TopicBalance {
    ghost threshold = { λ o. o.topic_balance };

    fn ratio(options: &Options) -> Ratio {
        options.topic_balance
    }
}

/// How many replicas of one topic a broker holds.
#[derive(Clone, Copy)]
pub struct TopicReplicas<'t> {
    // Its place among the topics.
    place: usize,
    name: &'t Topic,
}

impl<'t> Amount for TopicReplicas<'t> {
    ghost use Rattle.goal_terms.proofs.BoundLemmas.{topic-small};

    ghost weights = { λ q. topic_weights q.name.now };

    ghost made_for = { λ q c. (q.place < length (topics c.parts))
        × (topic_at c.parts q.place ≡ q.name.now) };

    #[tactic(auto, using(plan_terms::proofs::SameLemmas::brokers_same, plan_terms::proofs::SameLemmas::topics_same))]
    fn amount(&self, _case: &Case, book: &LoadBook, broker: usize) -> u128 {
        u128::from(book.topic_count(self.place, broker))
    }

    #[tactic(auto, using(plan_terms::proofs::SameLemmas::topics_same))]
    fn total(&self, _case: &Case, book: &LoadBook) -> u128 {
        u128::from(book.total_topic_count(self.place))
    }

    fn weight(&self, part: &Part, _leads: bool) -> u64 {
        u64::from(part.topic.as_str() == self.name.as_str())
    }

    ghost small_weights = { λ q p _. topic-small q.name.now p };
}

/// The goal that each topic's replicas are spread evenly: Cruise Control's
/// TopicReplicaDistributionGoal. Its units are the brokers that aren't lost, for each topic in the
/// order of its first partition.
#[derive(Drop)]
pub struct TopicReplicaDistributionGoal {
    band: Even<TopicBalance>,
    topics: Vec<Topic>,
}

impl TopicReplicaDistributionGoal {
    /// The goal for the case.
    pub fn new(alloc: Global, case: &Case) -> Result<Self, Memory>
        ensures { IfOk result
            (λ goal. ⟦<Even<TopicBalance> as Band>⟧.made_for goal.band case.now
            × (goal.topics.items ≡ topics case.now.parts)) }
    {
        Ok(TopicReplicaDistributionGoal {
            band: Even::new(case),
            topics: topics_of(alloc, case)?,
        })
    }

    // The replicas of the topic at a place.
    fn replicas(&self, place: usize) -> TopicReplicas<'_>
        requires { place < length self.now.topics.items }
        ensures place { result.place ≡ place }
        ensures name { result.name.now ≡ get_or self.now.topics.items place [] }
    {
        TopicReplicas {
            place,
            name: &self.topics[place],
        }
    }
}

// Whether the goal for one topic accepts an action.
fn topic_accepts(
    kind: &TopicReplicas<'_>,
    band: &Even<TopicBalance>,
    case: &Case,
    book: &LoadBook,
    action: Action,
) -> bool
    requires amount { ⟦<TopicReplicas<'static> as Amount>⟧.made_for kind.now case.now }
    requires band { ⟦<Even<TopicBalance> as Band>⟧.made_for band.now case.now }
    requires belongs { IsBookOf case.now book.now }
    requires applies { IsTrue (fits book.now.lists action) }
    ensures { IsTrue result
        ↔ Accepts
        (per_broker true (topic_weights kind.now.name.now)
        (even case.now.options.topic_balance (units_of case.now)) case.now) book.now.lists
        action }
{
    let _brokers = case.brokers();
    let sides = sides_of(kind, band, case, book, action);
    sides.giver_after <= sides.giver && sides.taker_after <= sides.taker
}

// Whether the broker at a place has an excess for one topic.
fn is_uneven(
    kind: &TopicReplicas<'_>,
    band: &Even<TopicBalance>,
    case: &Case,
    book: &LoadBook,
    broker: usize,
) -> bool
    requires amount { ⟦<TopicReplicas<'static> as Amount>⟧.made_for kind.now case.now }
    requires band { ⟦<Even<TopicBalance> as Band>⟧.made_for band.now case.now }
    requires belongs { IsBookOf case.now book.now }
    requires broker { broker < length case.now.brokers }
    ensures { result
        ≡ nat_lt 0
        (excess_with (topic_weights kind.now.name.now)
        (even case.now.options.topic_balance (units_of case.now)) case.now book.now.lists
        (id_at case.now.brokers broker)
        (quantity (topic_weights kind.now.name.now) case.now.parts
        (id_at case.now.brokers broker) book.now.lists)) }
{
    let all = total_of(kind, case, book);
    let amount = amount_at(kind, case, book, broker);
    unit_excess(band, case, all, amount, broker) > 0
}

impl Goal for TopicReplicaDistributionGoal {
    ghost use Rattle.goal_terms.proofs.CaseLemmas.{Limits-case};
    ghost use Rattle.goal_terms.proofs.PairLemmas.{stirred-still_parts};
    ghost use Rattle.goal_terms.proofs.TopicGoalLemmas.{topic-fits_120_bits, topic-cold_pairs};
    ghost use Rattle.goal_terms.proofs.VerdictLemmas.{topic-verdicts_stay};

    ghost meaning = { λ _ c. per_topic false
        (replica_rule (even c.options.topic_balance (units_of c))) c };

    ghost made_for = { λ g c. ⟦<Even<TopicBalance> as Band>⟧.made_for g.band c
        × (g.topics.items ≡ topics c.parts) };

    ghost heat_at = { λ _ c lists k. topic_heat (topics c.parts)
        (replica_rule (even c.options.topic_balance (units_of c))) c lists k };

    ghost stirs_at = { λ _ _ _ _. true };

    ghost weighs = { λ _. None };

    ghost room_at = { λ _ _ _ _. free };

    fn is_hard(&self, _case: &Case) -> bool {
        false
    }

    fn units(&self, case: &Case) -> usize {
        let brokers = case.brokers();
        case.topics() * unit_count(brokers)
    }

    fn excess(&self, case: &Case, book: &LoadBook, unit: usize) -> u128 {
        let count = unit_count(case.brokers());
        let mut left = unit;
        for place in 0..self.topics.len() {
            if left < count {
                let broker = unit_place(case.brokers(), left);
                return excess_at_place(&self.replicas(place), &self.band, case, book, broker);
            }
            left -= count;
        }
        unreachable!()
    }

    fn accepts(&self, case: &Case, book: &LoadBook, action: Action) -> bool {
        let _brokers = case.brokers();
        let first = self.replicas(first_topic_place(case, book, action));
        let second = self.replicas(second_topic_place(case, book, action));
        topic_accepts(&first, &self.band, case, book, action)
            && topic_accepts(&second, &self.band, case, book, action)
    }

    fn lessens(&self, case: &Case, book: &LoadBook, action: Action) -> bool {
        let _brokers = case.brokers();
        let first = first_topic_place(case, book, action);
        let second = second_topic_place(case, book, action);
        let one = sides_of(&self.replicas(first), &self.band, case, book, action);
        if first == second {
            return one.giver_after + one.taker_after < one.giver + one.taker;
        }
        let two = sides_of(&self.replicas(second), &self.band, case, book, action);
        one.giver_after + one.taker_after + two.giver_after + two.taker_after
            < one.giver + one.taker + two.giver + two.taker
    }

    fn heat(&self, case: &Case, book: &LoadBook, broker: usize) -> Heat {
        for place in 0..self.topics.len() {
            if is_uneven(&self.replicas(place), &self.band, case, book, broker) {
                return Heat::Other;
            }
        }
        Heat::Cold
    }

    fn stirs(&self, _case: &Case, _book: &LoadBook, _part: u32) -> bool {
        true
    }

    fn weight(&self, _case: &Case, _part: u32, _leads: bool) -> Option<u64> {
        None
    }

    fn whole(&self, _case: &Case, _book: &LoadBook) -> Option<u128> {
        None
    }

    fn room(&self, _case: &Case, _book: &LoadBook, _all: u128, _broker: usize) -> Option<Room> {
        None
    }

    ghost small = { λ _ c lists made is_case fits. topic-fits_120_bits false c.options.topic_balance
        c lists made.0.0.small (Limits-case c is_case) fits };

    ghost cold_pairs = { λ _ c lists _ is_case fits. topic-cold_pairs false
        (replica_rule (even c.options.topic_balance (units_of c))) c lists (Limits-case c is_case)
        fits };

    ghost still_parts = { λ _ c lists _ _ _. stirred-still_parts
        (per_topic false (replica_rule (even c.options.topic_balance (units_of c))) c) lists };

    ghost idle_trades = { λ _ _ _ _ _ _. tt };

    ghost rooms_decide = { λ _ _ _ _ _ _. tt };

    ghost rooms_stay = { λ _ _ _ _ _ _ _ _ _ _ _. free };

    ghost verdicts_stay = { λ _ c lists _ is_case fits. topic-verdicts_stay false
        (replica_rule (even c.options.topic_balance (units_of c))) c lists (Limits-case c is_case)
        fits };
}
