// How far brokers lie outside their bounds.
ghost use Rattle.goal_terms.specs.Bands.{units_of};
ghost use Rattle.goal_terms.specs.Heats.{bound_heat, broker_heat};
ghost use Rattle.goal_terms.specs.LeastLeaders.{leading_brokers};
ghost use Rattle.goal_terms.specs.Limits.{SmallCap};
ghost use Rattle.plan_terms.specs.Cluster.{id_at};
ghost use Rattle.goal_terms.specs.PerBroker.{unit_brokers, bound_excess, broker_excess, at_id};
ghost use Rattle.goal_terms.specs.Quantity.{quantity, total};
ghost use Rattle.goal_terms.specs.Rooms.{unscaled, bound_room, broker_room};
ghost use Rattle.plan_terms.specs.Belongs.{IsBookOf};
ghost use Rattle.plan_terms.specs.States.{is_dead, is_demoted};
ghost use Rattle.plan_terms.specs.declared.cluster.Broker.{Broker};
ghost use Rattle.std.specs.Prelude.{◌≡◌, ◌*◌, ◌<◌, ◌≤◌, ◌^◌, ◌&&◌, not, ℕ, length, map, get_or};

use crate::amount::Amount;
use crate::band::Band;
use goal_terms::{Heat, Room};
use load_model::{Case, LoadBook};
use plan_terms::Broker;

/// How many brokers aren't lost.
pub fn unit_count(brokers: &[Broker]) -> usize
    ensures { result ≡ length (unit_brokers brokers.now) }
{
    brokers.iter().filter(|x| !x.state.is_dead()).count()
}

/// The place of the broker of a unit: of the brokers that aren't lost, the one that has so many
/// before it.
pub fn unit_place(brokers: &[Broker], unit: usize) -> usize
    requires { unit < length (unit_brokers brokers.now) }
    ensures within { result < length brokers.now }
    ensures value { (f : Broker → ℕ)
        → get_or (map f (unit_brokers brokers.now)) unit 0 ≡ get_or (map f brokers.now) result 0 }
{
    let mut left = unit;
    for (place, broker) in brokers.iter().enumerate() {
        if !broker.state.is_dead() {
            if left == 0 {
                return place;
            }
            left -= 1;
        }
    }
    unreachable!()
}

// Whether the broker is neither lost nor demoted.
fn may_lead(broker: &Broker) -> bool
    ensures { result ≡ (not (is_dead broker.now.state) && not (is_demoted broker.now.state)) }
{
    !broker.state.is_dead() && !broker.state.is_demoted()
}

/// How many brokers are neither lost nor demoted.
pub fn leading_count(brokers: &[Broker]) -> usize
    ensures { result ≡ length (leading_brokers brokers.now) }
{
    let mut count = 0usize;
    for broker in brokers {
        if may_lead(broker) {
            count += 1;
        }
    }
    count
}

/// The place of the broker of a unit: of the brokers that are neither lost nor demoted, the one
/// that has so many before it.
pub fn leading_place(brokers: &[Broker], unit: usize) -> usize
    requires { unit < length (leading_brokers brokers.now) }
    ensures within { result < length brokers.now }
    ensures value { (f : Broker → ℕ)
        → get_or (map f (leading_brokers brokers.now)) unit 0
        ≡ get_or (map f brokers.now) result 0 }
{
    let mut left = unit;
    for (place, broker) in brokers.iter().enumerate() {
        if may_lead(broker) {
            if left == 0 {
                return place;
            }
            left -= 1;
        }
    }
    unreachable!()
}

/// The broker at a place.
pub fn broker_at(case: &Case, place: usize) -> &Broker
    requires { place < length case.now.brokers }
    ensures is { get_or case.now.brokers place result.now ≡ result.now }
    ensures cap { SmallCap result.now }
{
    &case.brokers()[place]
}

/// What the broker at a place carries, below 2^49.
pub fn amount_at<A: Amount>(kind: &A, case: &Case, book: &LoadBook, broker: usize) -> u128
    requires made { A.made_for kind.now case.now }
    requires belongs { IsBookOf case.now book.now }
    requires broker { broker < length case.now.brokers }
    ensures value { result
        ≡ quantity (A.weights kind.now) case.now.parts (id_at case.now.brokers broker)
        book.now.lists }
    ensures small { result < 2 ^ 49 }
{
    let _brokers = case.brokers();
    kind.amount(case, book, broker)
}

/// What all brokers carry together, lost ones too: below 2^49.
pub fn total_of<A: Amount>(kind: &A, case: &Case, book: &LoadBook) -> u128
    requires made { A.made_for kind.now case.now }
    requires belongs { IsBookOf case.now book.now }
    ensures value { result ≡ total (A.weights kind.now) case.now.parts book.now.lists }
    ensures small { result < 2 ^ 49 }
{
    let _brokers = case.brokers();
    kind.total(case, book)
}

// An amount, times the scale of the bounds.
fn scaled_by<B: Band>(band: &B, case: &Case, scale: u64, amount: u128) -> u128
    requires made { B.made_for band.now case.now }
    requires scale { scale ≡ (B.bounds band.now case.now).scale }
    requires amount { amount < 2 ^ 49 }
    ensures value { result ≡ amount * scale }
    ensures small { result ≤ 2 ^ 107 }
{
    let _brokers = case.brokers();
    amount * u128::from(scale)
}

/// The excess of a broker that carries an amount, at most 2^111.
#[tactic(auto, unfolding(goal_terms::specs::PerBroker::bound_excess))]
pub fn excess_of<B: Band>(band: &B, case: &Case, all: u128, amount: u128, broker: &Broker) -> u128
    requires made { B.made_for band.now case.now }
    requires all { all < 2 ^ 49 }
    requires amount { amount < 2 ^ 49 }
    requires cap { SmallCap broker.now }
    ensures value { result ≡ bound_excess (B.bounds band.now case.now) all amount broker.now }
    ensures small { result ≤ 2 ^ 111 }
{
    let _brokers = case.brokers();
    let edges = band.edges(case, all, broker);
    let scaled = scaled_by(band, case, edges.scale, amount);
    scaled.saturating_sub(edges.upper) + edges.lower.saturating_sub(scaled)
}

/// The excess of the broker at a place.
pub fn excess_at_place<A: Amount, B: Band>(
    kind: &A,
    band: &B,
    case: &Case,
    book: &LoadBook,
    place: usize,
) -> u128
    requires amount { A.made_for kind.now case.now }
    requires band { B.made_for band.now case.now }
    requires belongs { IsBookOf case.now book.now }
    requires place { place < length case.now.brokers }
    ensures { result
        ≡ get_or
        (map
        (broker_excess (A.weights kind.now) (B.bounds band.now case.now) case.now
        book.now.lists) case.now.brokers) place 0 }
{
    let all = total_of(kind, case, book);
    let amount = amount_at(kind, case, book, place);
    excess_of(band, case, all, amount, broker_at(case, place))
}

/// The excess that the broker at a place has where it carries an amount, at most 2^111: 0 where it
/// is lost.
pub fn unit_excess<B: Band>(band: &B, case: &Case, all: u128, amount: u128, place: usize) -> u128
    requires made { B.made_for band.now case.now }
    requires all { all < 2 ^ 49 }
    requires amount { amount < 2 ^ 49 }
    requires place { place < length case.now.brokers }
    ensures value { result
        ≡ at_id (bound_excess (B.bounds band.now case.now) all amount)
        (unit_brokers case.now.brokers) (id_at case.now.brokers place) }
    ensures small { result ≤ 2 ^ 111 }
{
    let _brokers = case.brokers();
    let broker = broker_at(case, place);
    if broker.state.is_dead() {
        return 0;
    }
    excess_of(band, case, all, amount, broker)
}

// Where a broker that carries an amount lies.
#[tactic(auto, unfolding(goal_terms::specs::Heats::bound_heat))]
fn heat_with<B: Band>(band: &B, case: &Case, all: u128, amount: u128, broker: &Broker) -> Heat
    requires made { B.made_for band.now case.now }
    requires all { all < 2 ^ 49 }
    requires amount { amount < 2 ^ 49 }
    requires cap { SmallCap broker.now }
    ensures { result ≡ bound_heat (B.bounds band.now case.now) all amount broker.now }
{
    let edges = band.edges(case, all, broker);
    let scaled = scaled_by(band, case, edges.scale, amount);
    if scaled > edges.upper {
        Heat::Above
    } else if scaled < edges.lower {
        Heat::Below
    } else {
        Heat::Cold
    }
}

/// Where the broker at a place lies: a lost one is cold.
pub fn heat_at_place<A: Amount, B: Band>(
    kind: &A,
    band: &B,
    case: &Case,
    book: &LoadBook,
    place: usize,
) -> Heat
    requires amount { A.made_for kind.now case.now }
    requires band { B.made_for band.now case.now }
    requires belongs { IsBookOf case.now book.now }
    requires place { place < length case.now.brokers }
    ensures { result
        ≡ broker_heat (A.weights kind.now) (B.bounds band.now case.now) case.now book.now.lists
        (id_at case.now.brokers place) }
{
    let _brokers = case.brokers();
    let broker = broker_at(case, place);
    if broker.state.is_dead() {
        return Heat::Cold;
    }
    let all = total_of(kind, case, book);
    let amount = amount_at(kind, case, book, place);
    heat_with(band, case, all, amount, broker)
}

// By how much a quantity may change where its scaled one may change by so much.
fn unscaled(scale: u64, scaled: u128) -> u64
    ensures { result ≡ unscaled scale scaled }
{
    if scale == 0 {
        return u64::MAX;
    }
    (scaled / u128::from(scale)).min(u128::from(u64::MAX)) as u64
}

// The room of a broker that carries an amount.
#[tactic(auto, unfolding(goal_terms::specs::Rooms::bound_room))]
fn room_with<B: Band>(band: &B, case: &Case, all: u128, amount: u128, broker: &Broker) -> Room
    requires made { B.made_for band.now case.now }
    requires all { all < 2 ^ 49 }
    requires amount { amount < 2 ^ 49 }
    requires cap { SmallCap broker.now }
    ensures { result ≡ bound_room (B.bounds band.now case.now) all amount broker.now }
{
    let _brokers = case.brokers();
    let edges = band.edges(case, all, broker);
    let scaled = scaled_by(band, case, edges.scale, amount);
    let gives = scaled.saturating_sub(edges.lower) + scaled.saturating_sub(edges.upper);
    let takes = edges.upper.saturating_sub(scaled) + edges.lower.saturating_sub(scaled);
    Room {
        give: unscaled(edges.scale, gives),
        take: unscaled(edges.scale, takes),
    }
}

/// The room of the broker at a place: no limit for a lost one. `all` is what all brokers carry
/// together.
pub fn room_at_place<A: Amount, B: Band>(
    kind: &A,
    band: &B,
    case: &Case,
    book: &LoadBook,
    all: u128,
    place: usize,
) -> Room
    requires amount { A.made_for kind.now case.now }
    requires band { B.made_for band.now case.now }
    requires belongs { IsBookOf case.now book.now }
    requires all { all ≡ total (A.weights kind.now) case.now.parts book.now.lists }
    requires place { place < length case.now.brokers }
    ensures { result
        ≡ broker_room (A.weights kind.now) (B.bounds band.now case.now) case.now book.now.lists
        (id_at case.now.brokers place) }
{
    let _brokers = case.brokers();
    let broker = broker_at(case, place);
    if broker.state.is_dead() {
        return Room {
            give: u64::MAX,
            take: u64::MAX,
        };
    }
    let amount = amount_at(kind, case, book, place);
    room_with(band, case, all, amount, broker)
}
