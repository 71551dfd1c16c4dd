// The goal that each broker that may lead leads at least as many partitions of a topic as the
// options ask.
ghost use Rattle.goal_terms.specs.LeastLeaders.{IsMadeFor, at_least, floor_excess, floor_in, floor_of, led_weights, least_leaders_goal, least_rule};
ghost use Rattle.goal_terms.specs.Limits.{SmallLoads, SmallWeights};
ghost use Rattle.goal_terms.specs.PerBroker.{per_broker};
ghost use Rattle.goal_terms.specs.PerTopic.{rule_weights, topic_heat};
ghost use Rattle.goal_terms.specs.Quantity.{quantity};
ghost use Rattle.goal_terms.specs.Rooms.{free};
ghost use Rattle.goal_terms.specs.Sides.{excess_with, sides};
ghost use Rattle.load_model.specs.Places.{topic_at};
ghost use Rattle.plan_terms.specs.Belongs.{IsBookOf};
ghost use Rattle.plan_terms.specs.Cluster.{Cluster, id_at};
ghost use Rattle.plan_terms.specs.Faults.{topics};
ghost use Rattle.plan_terms.specs.Fits.{fits};
ghost use Rattle.plan_terms.specs.Goal.{Accepts};
ghost use Rattle.std.specs.List.{All, filter};
ghost use Rattle.std.specs.Prelude.{◌≡◌, ◌<◌, ◌≤◌, ◌^◌, ◌↔◌, [], true, None, IfOk, IsTrue, ℕ, bytes_eq, get_or, is_some, length, map, nat_lt};

use broker_goals::{
    Amount, Band, Edges, amount_at, first_topic_place, leading_count, leading_place,
    second_topic_place, sides_of, topics_of, total_of, unit_excess,
};
use goal_terms::{Heat, Room, Sides};
use load_model::{Case, LoadBook};
use move_actions::Goal;
use plan_terms::{Action, Broker, Memory, MinLeaders, Part, Topic};
use std::alloc::Global;

/// How many partitions of one topic a broker leads.
#[derive(Clone, Copy)]
pub struct LedInTopic<'t> {
    // Its place among the topics.
    place: usize,
    name: &'t Topic,
}

impl<'t> Amount for LedInTopic<'t> {
    ghost use Rattle.goal_terms.proofs.LeastLemmas.{led-small};

    ghost weights = { λ q. led_weights q.name.now };

    ghost made_for = { λ q c. (q.place < length (topics c.parts))
        × (topic_at c.parts q.place ≡ q.name.now) };

    #[tactic(auto, using(plan_terms::proofs::SameLemmas::brokers_same, plan_terms::proofs::SameLemmas::topics_same))]
    fn amount(&self, _case: &Case, book: &LoadBook, broker: usize) -> u128 {
        u128::from(book.topic_leaders(self.place, broker))
    }

    #[tactic(auto, using(plan_terms::proofs::SameLemmas::topics_same))]
    fn total(&self, _case: &Case, book: &LoadBook) -> u128 {
        u128::from(book.total_topic_leaders(self.place))
    }

    fn weight(&self, part: &Part, leads: bool) -> u64 {
        if leads {
            u64::from(part.topic.as_str() == self.name.as_str())
        } else {
            0
        }
    }

    ghost small_weights = { λ q p _. led-small q.name.now p };
}

/// At least so many, where the broker isn't demoted.
#[derive(Clone, Copy)]
pub struct AtLeast {
    least: u32,
}

impl Band for AtLeast {
    ghost use Rattle.goal_terms.proofs.LeastLemmas.{least-bounds};

    ghost bounds = { λ b _. at_least b.least };

    ghost made_for = { λ b _. b.least < 2 ^ 32 };

    fn edges(&self, _case: &Case, all: u128, broker: &Broker) -> Edges {
        let lower = if broker.state.is_demoted() {
            0
        } else {
            u128::from(self.least)
        };
        Edges {
            scale: 1,
            upper: all,
            lower,
        }
    }

    ghost small_bounds = { λ b c made _. least-bounds b.least made };
}

/// The goal that each broker that is neither lost nor demoted leads at least as many partitions of
/// a topic as the cluster file asks: Cruise Control's MinTopicLeadersPerBrokerGoal. Its units are
/// those brokers, for each named topic that has partitions, in the order of the topics.
#[derive(Drop)]
pub struct MinTopicLeadersPerBrokerGoal {
    // The topics of the case.
    topics: Vec<Topic>,
    // Beside each, its least number of leaders, where it is named.
    floors: Vec<Option<u32>>,
}

// The least number of leaders of a topic.
fn floor_in(min_leaders: &[MinLeaders], topic: &Topic) -> Option<u32>
    ensures { result ≡ floor_in min_leaders.now topic.now }
{
    let named = min_leaders
        .iter()
        .find(|entry| entry.topic.as_str() == topic.as_str());
    named.map(|entry| entry.leaders)
}

fn floors_of(
    alloc: Global,
    min_leaders: &[MinLeaders],
    topics: &[Topic],
) -> Result<Vec<Option<u32>>, Memory>
    ensures { IfOk result (λ v. v.items ≡ map (floor_in min_leaders.now) topics.now) }
{
    let mut floors = Vec::new(alloc);
    for topic in topics {
        floors.push(floor_in(min_leaders, topic))?;
    }
    Ok(floors)
}

// A u32 is below 2^32.
fn is_small(number: u32)
    ensures { number < 2 ^ 32 }
{
    let _ = number;
}

// Each least number is a u32.
fn are_floors(min_leaders: &[MinLeaders])
    ensures { All (λ m. m.leaders < 2 ^ 32) min_leaders.now }
{
    for entry in min_leaders {
        is_small(entry.leaders);
    }
}

// How many topics are named.
fn named_count(floors: &[Option<u32>]) -> usize
    ensures value { result ≡ length (filter is_some floors.now) }
    ensures within { result ≤ length floors.now }
{
    let mut count = 0usize;
    for floor in floors {
        if floor.is_some() {
            count += 1;
        }
    }
    count
}

impl MinTopicLeadersPerBrokerGoal {
    /// The goal for the case.
    pub fn new(alloc: Global, case: &Case) -> Result<Self, Memory>
        ensures { IfOk result (λ goal. IsMadeFor goal.topics.items goal.floors.items case.now) }
    {
        let min_leaders = case.options().min_leaders.as_slice();
        are_floors(min_leaders);
        let topics = topics_of(alloc, case)?;
        let floors = floors_of(alloc, min_leaders, &topics)?;
        Ok(MinTopicLeadersPerBrokerGoal { topics, floors })
    }

    // The leaders of the topic at a place.
    fn led(&self, place: usize) -> LedInTopic<'_>
        requires { place < length self.now.topics.items }
        ensures place { result.place ≡ place }
        ensures name { result.name.now ≡ get_or self.now.topics.items place [] }
    {
        LedInTopic {
            place,
            name: &self.topics[place],
        }
    }
}

impl MinTopicLeadersPerBrokerGoal {
    // Whether the topic at a place is named.
    fn is_named(&self, case: &Case, place: usize) -> bool
        requires made { IsMadeFor self.now.topics.items self.now.floors.items case.now }
        requires place { place < length self.now.topics.items }
        ensures { result
            ≡ is_some
            (floor_in case.now.options.min_leaders (get_or self.now.topics.items place [])) }
    {
        self.floors[place].is_some()
    }

    // The bounds of the topic at a place.
    fn band(&self, case: &Case, place: usize) -> AtLeast
        requires made { IsMadeFor self.now.topics.items self.now.floors.items case.now }
        requires place { place < length self.now.topics.items }
        ensures value { result.least ≡ floor_of case.now (get_or self.now.topics.items place []) }
        ensures small { result.least < 2 ^ 32 }
    {
        let least = self.floors[place].unwrap_or(0);
        AtLeast { least }
    }

    // The excesses of the two brokers of an action, before and after it, for the topic at a place.
    fn sides_at(&self, case: &Case, book: &LoadBook, place: usize, action: Action) -> Sides
        // The rule and the book are of the case, the topic is one of its own, and the action fits.
        requires made { IsMadeFor self.now.topics.items self.now.floors.items case.now }
        requires place { place < length self.now.topics.items }
        requires belongs { IsBookOf case.now book.now }
        requires applies { IsTrue (fits book.now.lists action) }
        // The excesses of the definition, each at most 2^111.
        ensures value { result
            ≡ sides (rule_weights (least_rule case.now) (get_or self.now.topics.items place []))
            ((least_rule case.now).bounds (get_or self.now.topics.items place [])) case.now
            book.now.lists action }
        ensures giver { result.giver ≤ 2 ^ 111 }
        ensures giver_after { result.giver_after ≤ 2 ^ 111 }
        ensures taker { result.taker ≤ 2 ^ 111 }
        ensures taker_after { result.taker_after ≤ 2 ^ 111 }
    {
        sides_of(
            &self.led(place),
            &self.band(case, place),
            case,
            book,
            action,
        )
    }

    // Whether the topic at a place accepts an action.
    fn topic_accepts(&self, case: &Case, book: &LoadBook, place: usize, action: Action) -> bool
        requires made { IsMadeFor self.now.topics.items self.now.floors.items case.now }
        requires place { place < length self.now.topics.items }
        requires belongs { IsBookOf case.now book.now }
        requires applies { IsTrue (fits book.now.lists action) }
        ensures { IsTrue result
            ↔ Accepts
            (per_broker true
            (rule_weights (least_rule case.now) (get_or self.now.topics.items place []))
            ((least_rule case.now).bounds (get_or self.now.topics.items place [])) case.now)
            book.now.lists action }
    {
        if !self.is_named(case, place) {
            return true;
        }
        let _brokers = case.brokers();
        let sides = self.sides_at(case, book, place, action);
        sides.giver_after <= sides.giver && sides.taker_after <= sides.taker
    }

    // How many leaders of the topic at a place the broker at a place lacks.
    fn lack(&self, case: &Case, book: &LoadBook, place: usize, broker: usize) -> u128
        requires made { IsMadeFor self.now.topics.items self.now.floors.items case.now }
        requires place { place < length self.now.topics.items }
        requires belongs { IsBookOf case.now book.now }
        requires broker { broker < length case.now.brokers }
        ensures { result
            ≡ get_or
            (map (floor_excess case.now book.now.lists (get_or self.now.topics.items place []))
            case.now.brokers) broker 0 }
    {
        let count = amount_at(&self.led(place), case, book, broker);
        let band = self.band(case, place);
        u128::from(band.least).saturating_sub(count)
    }

    // Whether the broker at a place lacks leaders of the topic at a place, where it may lead.
    fn lacks(&self, case: &Case, book: &LoadBook, place: usize, broker: usize) -> bool
        requires made { IsMadeFor self.now.topics.items self.now.floors.items case.now }
        requires place { place < length self.now.topics.items }
        requires belongs { IsBookOf case.now book.now }
        requires broker { broker < length case.now.brokers }
        ensures { result
            ≡ nat_lt 0
            (excess_with
            (rule_weights (least_rule case.now) (get_or self.now.topics.items place []))
            ((least_rule case.now).bounds (get_or self.now.topics.items place [])) case.now
            book.now.lists (id_at case.now.brokers broker)
            (quantity
            (rule_weights (least_rule case.now) (get_or self.now.topics.items place []))
            case.now.parts (id_at case.now.brokers broker) book.now.lists)) }
    {
        let kind = self.led(place);
        let band = self.band(case, place);
        let all = total_of(&kind, case, book);
        let amount = amount_at(&kind, case, book, broker);
        unit_excess(&band, case, all, amount, broker) > 0
    }
}

impl Goal for MinTopicLeadersPerBrokerGoal {
    ghost use Rattle.goal_terms.proofs.CaseLemmas.{Limits-case};
    ghost use Rattle.goal_terms.proofs.LeastLemmas.{least-small, least-cold_pairs};
    ghost use Rattle.goal_terms.proofs.PairLemmas.{stirred-still_parts};
    ghost use Rattle.goal_terms.proofs.VerdictLemmas.{least-verdicts_stay};

    ghost meaning = { λ _ c. least_leaders_goal c };

    ghost made_for = { λ g c. IsMadeFor g.topics.items g.floors.items c };

    ghost heat_at = { λ _ c lists k. topic_heat (topics c.parts) (least_rule c) c lists k };

    ghost stirs_at = { λ _ _ _ _. true };

    ghost weighs = { λ _. None };

    ghost room_at = { λ _ _ _ _. free };

    fn is_hard(&self, _case: &Case) -> bool {
        true
    }

    fn units(&self, case: &Case) -> usize {
        let brokers = case.brokers();
        named_count(&self.floors) * leading_count(brokers)
    }

    fn excess(&self, case: &Case, book: &LoadBook, unit: usize) -> u128 {
        let count = leading_count(case.brokers());
        let mut left = unit;
        for place in 0..self.topics.len() {
            if self.is_named(case, place) {
                if left < count {
                    let broker = leading_place(case.brokers(), left);
                    return self.lack(case, book, place, broker);
                }
                left -= count;
            }
        }
        unreachable!()
    }

    fn accepts(&self, case: &Case, book: &LoadBook, action: Action) -> bool {
        let _brokers = case.brokers();
        let first = first_topic_place(case, book, action);
        let second = second_topic_place(case, book, action);
        self.topic_accepts(case, book, first, action)
            && self.topic_accepts(case, book, second, action)
    }

    fn lessens(&self, case: &Case, book: &LoadBook, action: Action) -> bool {
        let _brokers = case.brokers();
        let first = first_topic_place(case, book, action);
        let second = second_topic_place(case, book, action);
        let one = self.sides_at(case, book, first, action);
        if first == second {
            return one.giver_after + one.taker_after < one.giver + one.taker;
        }
        let two = self.sides_at(case, book, second, action);
        one.giver_after + one.taker_after + two.giver_after + two.taker_after
            < one.giver + one.taker + two.giver + two.taker
    }

    fn heat(&self, case: &Case, book: &LoadBook, broker: usize) -> Heat {
        for place in 0..self.topics.len() {
            if self.lacks(case, book, place, broker) {
                return Heat::Other;
            }
        }
        Heat::Cold
    }

    fn stirs(&self, _case: &Case, _book: &LoadBook, _part: u32) -> bool {
        true
    }

    fn weight(&self, _case: &Case, _part: u32, _leads: bool) -> Option<u64> {
        None
    }

    fn whole(&self, _case: &Case, _book: &LoadBook) -> Option<u128> {
        None
    }

    fn room(&self, _case: &Case, _book: &LoadBook, _all: u128, _broker: usize) -> Option<Room> {
        None
    }

    ghost small = { λ _ c lists made is_case fits. least-small c lists made.small
        (Limits-case c is_case) };

    ghost cold_pairs = { λ _ c lists _ is_case fits. least-cold_pairs c lists
        (Limits-case c is_case) fits };

    ghost still_parts = { λ _ c lists _ _ _. stirred-still_parts (least_leaders_goal c) lists };

    ghost idle_trades = { λ _ _ _ _ _ _. tt };

    ghost rooms_decide = { λ _ _ _ _ _ _. tt };

    ghost rooms_stay = { λ _ _ _ _ _ _ _ _ _ _ _. free };

    ghost verdicts_stay = { λ _ c lists _ is_case fits. least-verdicts_stay c lists
        (Limits-case c is_case) fits };
}
