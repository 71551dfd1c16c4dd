// Which broker becomes a further member of a list.
ghost use Rattle.std.specs.Prelude.{◌≡◌, ◌<◌, ◌+◌, IfOk, IfSome, MatchOption, false, length, map, option_map, true};
ghost use Rattle.std.specs.List.{list_any};
ghost use Rattle.plan_terms.specs.Cluster.{id_at};
ghost use Rattle.plan_terms.specs.Racks.{equal_racks, rack_of};
ghost use Rattle.factor_change.specs.Kept.{IsDraft};
ghost use Rattle.factor_change.specs.Choice.{IsFirstLeast, joins_at, may_join, next_member, precedes_at, shares_rack};
ghost use Rattle.factor_change.specs.Best.{IsBest, place_of};

use load_model::Case;
use plan_terms::{Broker, Memory, RackName, Replicas, has};
use std::alloc::Global;

fn rack_at(case: &Case, id: u32) -> Option<&RackName>
    ensures { option_map (λ r. r.now) result ≡ rack_of case.now id }
{
    case.broker(id)?.rack.as_ref()
}

fn are_equal(one: Option<&RackName>, other: Option<&RackName>) -> bool
    ensures { result
        ≡ equal_racks (option_map (λ r. r.now) one.entry) (option_map (λ r. r.now) other.entry) }
{
    match one {
        None => false,
        Some(x) => match other {
            None => false,
            Some(y) => x.as_str() == y.as_str(),
        },
    }
}

// Whether the rack is one of these.
fn is_among(rack: Option<&RackName>, racks: &[Option<&RackName>]) -> bool
    ensures { result
        ≡ list_any
        (λ r. equal_racks (option_map (λ x. x.now) rack.entry) (option_map (λ x. x.now) r))
        racks.now }
{
    racks.iter().any(|other| are_equal(rack, *other))
}

// The racks of the members.
fn racks_of<'c>(
    alloc: Global,
    case: &'c Case,
    list: &[u32],
) -> Result<Vec<Option<&'c RackName>>, Memory>
    ensures { IfOk result
        (λ v. map (option_map (λ r. r.now)) v.items ≡ map (rack_of case.now) list.now) }
{
    let mut racks = Vec::new(alloc);
    for member in list {
        racks.push(rack_at(case, *member))?;
    }
    Ok(racks)
}

// Whether the broker's rack is among the members' racks.
fn shares_rack(case: &Case, list: &[u32], racks: &[Option<&RackName>], broker: u32) -> bool
    requires { map (option_map (λ r. r.now)) racks.now ≡ map (rack_of case.now) list.now }
    ensures { result ≡ shares_rack case.now list.now broker }
{
    has(list, broker) || is_among(rack_at(case, broker), racks)
}

/// Whether the broker isn't lost and isn't a member.
pub fn may_join(list: &[u32], broker: &Broker) -> bool
    ensures { result ≡ may_join list.now broker.now }
{
    !broker.state.is_dead() && !has(list, broker.id)
}

/// The lists as changed so far, and how many replicas each broker has over them.
#[derive(Drop)]
pub struct Draft {
    pub lists: Vec<Replicas>,
    pub counts: Vec<u64>,
}

// A place, and whether its broker's rack is among the members' racks.
#[derive(Clone, Copy)]
struct Best {
    place: usize,
    shared: bool,
}

// Whether the broker at a place is rather to become a member than the best one so far. Racks are
// compared only where the numbers of replicas leave it open.
#[tactic(auto, unfolding(crate::specs::Choice::precedes))]
fn precedes(
    case: &Case,
    draft: &Draft,
    list: &[u32],
    racks: &[Option<&RackName>],
    place: usize,
    best: Best,
) -> bool
    requires draft { IsDraft case.now draft.now.lists.items draft.now.counts.items }
    requires racks { map (option_map (λ r. r.now)) racks.now ≡ map (rack_of case.now) list.now }
    requires place { place < length case.now.brokers }
    requires best { IsBest case.now list.now best }
    ensures { result ≡ precedes_at case.now draft.now.lists.items list.now place best.place }
{
    let fewer = draft.counts[place] < draft.counts[best.place];
    if best.shared {
        fewer || !shares_rack(case, list, racks, case.brokers()[place].id)
    } else {
        fewer && !shares_rack(case, list, racks, case.brokers()[place].id)
    }
}

// The broker at a place, if it may become a member.
fn candidate(case: &Case, list: &[u32], racks: &[Option<&RackName>], place: usize) -> Option<Best>
    requires racks { map (option_map (λ r. r.now)) racks.now ≡ map (rack_of case.now) list.now }
    requires place { place < length case.now.brokers }
    ensures { MatchOption result (joins_at case.now list.now place ≡ false)
        (λ b. (b.place ≡ place) × IsBest case.now list.now b
        × (joins_at case.now list.now place ≡ true)) }
{
    let broker = &case.brokers()[place];
    if !may_join(list, broker) {
        return None;
    }
    let shared = shares_rack(case, list, racks, broker.id);
    Some(Best { place, shared })
}

// The best place up to and with this one, after the best one before it.
fn better(
    case: &Case,
    draft: &Draft,
    list: &[u32],
    racks: &[Option<&RackName>],
    place: usize,
    best: Option<Best>,
) -> Option<Best>
    requires racks { map (option_map (λ r. r.now)) racks.now ≡ map (rack_of case.now) list.now }
    requires draft { IsDraft case.now draft.now.lists.items draft.now.counts.items }
    requires place { place < length case.now.brokers }
    requires best { IfSome best (IsBest case.now list.now) }
    requires least { IsFirstLeast (joins_at case.now list.now)
        (precedes_at case.now draft.now.lists.items list.now) place (place_of best) }
    ensures best { IfSome result (IsBest case.now list.now) }
    ensures least { IsFirstLeast (joins_at case.now list.now)
        (precedes_at case.now draft.now.lists.items list.now) (place + 1) (place_of result) }
{
    match best {
        None => candidate(case, list, racks, place),
        Some(old) => {
            if !precedes(case, draft, list, racks, place, old) {
                return best;
            }
            match candidate(case, list, racks, place) {
                None => best,
                Some(new) => Some(new),
            }
        }
    }
}

// The place of the broker that is to become a member.
fn least_place(
    case: &Case,
    draft: &Draft,
    list: &[u32],
    racks: &[Option<&RackName>],
) -> Option<usize>
    requires racks { map (option_map (λ r. r.now)) racks.now ≡ map (rack_of case.now) list.now }
    requires draft { IsDraft case.now draft.now.lists.items draft.now.counts.items }
    ensures { IsFirstLeast (joins_at case.now list.now)
        (precedes_at case.now draft.now.lists.items list.now) (length case.now.brokers) result }
{
    let mut best = None;
    for place in 0..case.brokers().len() {
        best = better(case, draft, list, racks, place, best);
    }
    Some(best?.place)
}

/// The place of the broker that is to become a member of a list.
#[tactic(auto, using(crate::proofs::Least::least_is))]
pub fn next_place(
    alloc: Global,
    case: &Case,
    draft: &Draft,
    list: &[u32],
) -> Result<Option<usize>, Memory>
    requires { IsDraft case.now draft.now.lists.items draft.now.counts.items }
    ensures place { IfOk result (λ o. IfSome o (λ k. k < length case.now.brokers)) }
    ensures member { IfOk result
        (λ o. option_map (id_at case.now.brokers) o
        ≡ next_member case.now draft.now.lists.items list.now) }
{
    let racks = racks_of(alloc, case, list)?;
    Ok(least_place(case, draft, list, &racks))
}
