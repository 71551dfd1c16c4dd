// What the earlier goals say of a move, by the rooms of its two brokers.
ghost use Rattle.candidate_order.specs.Known.{rooms_for, weights_for};
ghost use Rattle.std.specs.Prelude.{◌≡◌, ◌<◌, ◌≤◌, ◌↔◌, ℕ, false, None, IsTrue, IfOk, IfSome, map, length, get_or};
ghost use Rattle.std.specs.List.{All};
ghost use Rattle.candidate_order.specs.Looks.{look_weight, look_whole, look_room, Passes};
ghost use Rattle.goal_terms.specs.Rooms.{free};
ghost use Rattle.plan_terms.specs.Belongs.{IsBookOf};
ghost use Rattle.plan_terms.specs.Cluster.{leads, id_at};
ghost use Rattle.plan_terms.specs.Fits.{fits, targets_known};
ghost use Rattle.plan_terms.specs.Goal.{Accepts};
ghost use Rattle.plan_terms.specs.Trace.{AllAccept};
ghost use Rattle.plan_terms.specs.declared.actions.Action.{Action};

use goal_terms::Room;
use load_model::{Case, LoadBook};
use move_actions::Goal;
use plan_terms::{Action, Memory};
use std::alloc::Global;

// What a place of a partition carries for a goal: 0 where it has no quantity.
fn weight_for<G: Goal>(case: &Case, goal: &G, part: u32, leads: bool) -> u64
    requires made { G.made_for goal.now case.now }
    requires part { part < length case.now.parts }
    ensures { result ≡ look_weight (G.weighs goal.now) case.now.parts part leads }
{
    match goal.weight(case, part, leads) {
        Some(weight) => weight,
        None => 0,
    }
}

/// What a place of a partition carries for each goal: 0 for one without a quantity.
pub fn weights_of<G: Goal>(
    alloc: Global,
    case: &Case,
    goals: &[G],
    part: u32,
    leads: bool,
) -> Result<Vec<u64>, Memory>
    requires made { All (λ g. G.made_for g case.now) goals.now }
    requires part { part < length case.now.parts }
    ensures { IfOk result
        (λ v. v.items ≡ map (λ g. look_weight (G.weighs g) case.now.parts part leads) goals.now) }
{
    let mut weights = Vec::new(alloc);
    for goal in goals {
        weights.push(weight_for(case, goal, part, leads))?;
    }
    Ok(weights)
}

// The room of a broker that may give and take anything.
fn free_room() -> Room
    ensures { result ≡ free }
{
    Room {
        give: u64::MAX,
        take: u64::MAX,
    }
}

// What all brokers carry together for a goal: 0 where it has no quantity.
fn whole_for<G: Goal>(case: &Case, book: &LoadBook, goal: &G) -> u128
    requires made { G.made_for goal.now case.now }
    requires belongs { IsBookOf case.now book.now }
    ensures { result ≡ look_whole (G.weighs goal.now) case.now.parts book.now.lists }
{
    match goal.whole(case, book) {
        Some(all) => all,
        None => 0,
    }
}

/// What all brokers carry together for each goal: 0 for one without a quantity. No action changes
/// it.
pub fn wholes_of<G: Goal>(
    alloc: Global,
    case: &Case,
    book: &LoadBook,
    goals: &[G],
) -> Result<Vec<u128>, Memory>
    requires made { All (λ g. G.made_for g case.now) goals.now }
    requires belongs { IsBookOf case.now book.now }
    ensures { IfOk result
        (λ v. v.items
        ≡ map (λ g. look_whole (G.weighs g) case.now.parts book.now.lists) goals.now) }
{
    let mut wholes = Vec::new(alloc);
    for goal in goals {
        wholes.push(whole_for(case, book, goal))?;
    }
    Ok(wholes)
}

// The room of the broker at a place for a goal: no limit where it has no quantity.
fn room_for<G: Goal>(case: &Case, book: &LoadBook, goal: &G, all: u128, broker: usize) -> Room
    requires made { G.made_for goal.now case.now }
    requires belongs { IsBookOf case.now book.now }
    requires all { all ≡ look_whole (G.weighs goal.now) case.now.parts book.now.lists }
    requires broker { broker < length case.now.brokers }
    ensures { result
        ≡ look_room (G.weighs goal.now)
        (G.room_at goal.now case.now book.now.lists (id_at case.now.brokers broker)) }
{
    match goal.room(case, book, all, broker) {
        Some(room) => room,
        None => free_room(),
    }
}

/// The room of the broker at a place for each goal: no limit for one without a quantity.
pub fn rooms_of<G: Goal>(
    alloc: Global,
    case: &Case,
    book: &LoadBook,
    goals: &[G],
    wholes: &[u128],
    broker: usize,
) -> Result<Vec<Room>, Memory>
    requires made { All (λ g. G.made_for g case.now) goals.now }
    requires belongs { IsBookOf case.now book.now }
    requires wholes { wholes.now
        ≡ map (λ g. look_whole (G.weighs g) case.now.parts book.now.lists) goals.now }
    requires broker { broker < length case.now.brokers }
    ensures { IfOk result
        (λ v. v.items
        ≡ rooms_for G.Goal case.now book.now.lists (id_at case.now.brokers broker) goals.now) }
{
    let mut rooms = Vec::new(alloc);
    for (k, goal) in goals.iter().enumerate() {
        rooms.push(room_for(case, book, goal, wholes[k], broker))?;
    }
    Ok(rooms)
}

/// Whether each giver may give the weight.
pub fn all_give(weights: &[u64], givers: &[Room]) -> bool
    requires { length weights.now ≡ length givers.now }
    ensures { IsTrue result
        ↔ ((k : ℕ) → k < length weights.now
        → get_or weights.now k 0 ≤ (get_or givers.now k free).give) }
{
    for k in 0..weights.len() {
        if givers[k].give < weights[k] {
            return false;
        }
    }
    true
}

/// Whether each giver may give the weight, and each taker take it.
pub fn all_pass(weights: &[u64], givers: &[Room], takers: &[Room]) -> bool
    requires givers { length weights.now ≡ length givers.now }
    requires takers { length weights.now ≡ length takers.now }
    ensures { IsTrue result
        ↔ ((k : ℕ) → k < length weights.now
        → Passes (get_or weights.now k 0) (get_or givers.now k free)
        (get_or takers.now k free)) }
{
    for k in 0..weights.len() {
        if givers[k].give < weights[k] || takers[k].take < weights[k] {
            return false;
        }
    }
    true
}

/// Whether the giver's rooms let a replica go at all. Where they don't, no move of it is accepted,
/// wherever it goes.
pub fn may_leave<G: Goal>(
    case: &Case,
    book: &LoadBook,
    earlier: &[G],
    part: u32,
    from: u32,
    weights: &[u64],
    givers: &[Room],
) -> bool
    requires made { All (λ g. G.made_for g case.now) earlier.now }
    requires belongs { IsBookOf case.now book.now }
    requires weights { weights.now
        ≡ weights_for G.Goal case.now book.now.lists part from earlier.now }
    requires givers { givers.now ≡ rooms_for G.Goal case.now book.now.lists from earlier.now }
    ensures { result ≡ false → (to : ℕ) → IsTrue (fits book.now.lists (Action.Move part from to))
        → AllAccept (map (λ g. G.meaning g case.now) earlier.now) book.now.lists
        (Action.Move part from to) → ⊥ }
{
    let _brokers = case.brokers();
    all_give(weights, givers)
}

/// Whether each of the goals accepts the action.
pub fn all_accept<G: Goal>(case: &Case, book: &LoadBook, earlier: &[G], action: Action) -> bool
    requires made { All (λ g. G.made_for g case.now) earlier.now }
    requires belongs { IsBookOf case.now book.now }
    requires applies { IsTrue (fits book.now.lists action) }
    requires known { IsTrue (targets_known case.now action) }
    ensures { IsTrue result
        ↔ AllAccept (map (λ g. G.meaning g case.now) earlier.now) book.now.lists action }
{
    for goal in earlier {
        if !goal.accepts(case, book, action) {
            return false;
        }
    }
    true
}
