// The first swap of one replica that serves.
ghost use Rattle.std.specs.Prelude.{◌≡◌, ◌<◌, ◌↔◌, ℕ, false, true, IsTrue, map, length};
ghost use Rattle.std.specs.List.{All};
ghost use Rattle.candidate_order.specs.CandidateList.{candidates_at};
ghost use Rattle.candidate_order.specs.Known.{FindsFirst, IsRowFor, IsScanFor, StepFor, weight_for, weights_for};
ghost use Rattle.candidate_order.specs.Looks.{may_meet, may_swap};
ghost use Rattle.candidate_order.specs.Order.{IsOrderOf};
ghost use Rattle.candidate_order.specs.Scan.{AreWeights};
ghost use Rattle.candidate_order.specs.declared.kinds.Kind.TheVariants as kind;
ghost use Rattle.plan_terms.specs.Belongs.{IsBookOf};
ghost use Rattle.plan_terms.specs.Cluster.{Lists, list_of, leads};
ghost use Rattle.plan_terms.specs.Legal.{is_legal};
ghost use Rattle.plan_terms.specs.declared.actions.Action.{Action};

use crate::kept::{PartWeights, Row, Scan, column, row_of};
use crate::order::Order;
use crate::trades::trade_serves;
use goal_terms::Heat;
use load_model::{Case, LoadBook};
use move_actions::{Goal, is_open};
use plan_terms::{Action, leads};

// Whether a swap of the two brokers can help the goal at all.
fn may_meet(own: Option<u64>, source: Heat, target: Heat) -> bool
    ensures { result ≡ may_meet own source target }
{
    let source_out = matches!(source, Heat::Above) || matches!(source, Heat::Below);
    let target_out = matches!(target, Heat::Above) || matches!(target, Heat::Below);
    match own {
        Some(_) => source_out || target_out,
        None => !(matches!(source, Heat::Cold) && matches!(target, Heat::Cold)),
    }
}

// Whether a trade of these weights can help the goal at all.
pub(crate) fn may_swap(own: Option<u64>, back: Option<u64>, source: Heat, target: Heat) -> bool
    ensures { result ≡ may_swap own back source target }
{
    match (own, back) {
        (Some(out), Some(back)) => {
            if back < out {
                matches!(source, Heat::Above) || matches!(target, Heat::Below)
            } else {
                out < back && (matches!(target, Heat::Above) || matches!(source, Heat::Below))
            }
        }
        _ => !(matches!(source, Heat::Cold) && matches!(target, Heat::Cold)),
    }
}

// Whether a swap of any of a broker's replicas may be legal.
pub(crate) fn may_trade(case: &Case, from: u32) -> bool
    ensures { result ≡ false → (lists : Lists) (p q b : ℕ)
        → is_legal case.now lists (Action.Swap p from q b) ≡ true → ⊥ }
{
    if case.options().leads_only || case.any_new() {
        return false;
    }
    case.is_live(from)
}

// Whether a swap of a broker's replica may be legal at all, whatever it is exchanged for.
fn may_be_swapped(case: &Case, part: u32, from: u32) -> bool
    requires { part < length case.now.parts }
    ensures { result ≡ false → (lists : Lists) (q b : ℕ)
        → is_legal case.now lists (Action.Swap part from q b) ≡ true → ⊥ }
{
    if !may_trade(case, from) {
        return false;
    }
    is_open(case, part)
}

// Whether a swap is legal, each earlier goal accepts it, and it lessens the goal.
fn swap_serves<G: Goal>(
    case: &Case,
    book: &LoadBook,
    earlier: &[G],
    goal: &G,
    weights: &[PartWeights],
    part: u32,
    source: &Row,
    outs: &[u64],
    own: Option<u64>,
    other: u32,
    target: &Row,
) -> bool
    // The goals and the book are of the case.
    requires made { All (λ g. G.made_for g case.now) earlier.now }
    requires made_goal { G.made_for goal.now case.now }
    requires belongs { IsBookOf case.now book.now }
    // What is weighed, and the partition with its source.
    requires weights { AreWeights G.weighs earlier.now case.now.parts weights.now }
    requires part { part < length case.now.parts }
    requires source { IsRowFor G.Goal case.now book.now.lists earlier.now goal.now source.now }
    requires outs { outs.now
        ≡ weights_for G.Goal case.now book.now.lists part source.now.id earlier.now }
    requires own { own ≡ weight_for G.Goal case.now book.now.lists part source.now.id goal.now }
    // The other partition and its target.
    requires other { other < length case.now.parts }
    requires target { IsRowFor G.Goal case.now book.now.lists earlier.now goal.now target.now }
    // Whether the swap serves.
    ensures { IsTrue result
        ↔ StepFor G.Goal case.now book.now.lists earlier.now goal.now
        (Action.Swap part source.now.id other target.now.id) }
{
    let _brokers = case.brokers();
    let _lists = book.lists();
    if part >= other {
        return false;
    }
    let first = leads(book.list(other as usize), target.id);
    let back = goal.weight(case, other, first);
    if !may_swap(own, back, source.heat, target.heat) {
        return false;
    }
    let action = Action::Swap {
        part,
        from: source.id,
        other,
        to: target.id,
    };
    let backs = column(case, earlier, weights, other, first);
    let givers = source.rooms.as_slice();
    let takers = target.rooms.as_slice();
    trade_serves(
        case, book, earlier, goal, part, action, outs, backs, givers, takers,
    )
}

// The first swap of one replica with those of one broker that serves.
fn first_with<G: Goal>(
    case: &Case,
    book: &LoadBook,
    earlier: &[G],
    goal: &G,
    weights: &[PartWeights],
    part: u32,
    source: &Row,
    outs: &[u64],
    own: Option<u64>,
    target: &Row,
    others: &[u32],
) -> Option<Action>
    // The goals and the book are of the case.
    requires made { All (λ g. G.made_for g case.now) earlier.now }
    requires made_goal { G.made_for goal.now case.now }
    requires belongs { IsBookOf case.now book.now }
    // What is weighed, and the partition with its source.
    requires weights { AreWeights G.weighs earlier.now case.now.parts weights.now }
    requires part { part < length case.now.parts }
    requires source { IsRowFor G.Goal case.now book.now.lists earlier.now goal.now source.now }
    requires outs { outs.now
        ≡ weights_for G.Goal case.now book.now.lists part source.now.id earlier.now }
    requires own { own ≡ weight_for G.Goal case.now book.now.lists part source.now.id goal.now }
    // The target and its partitions.
    requires target { IsRowFor G.Goal case.now book.now.lists earlier.now goal.now target.now }
    requires others { All (λ q. q < length case.now.parts) others.now }
    // The first that serves, or none does.
    ensures { FindsFirst G.Goal case.now book.now.lists earlier.now goal.now
        (map (λ q. Action.Swap part source.now.id q target.now.id) others.now) result }
{
    let _brokers = case.brokers();
    if !may_meet(own, source.heat, target.heat) {
        return None;
    }
    for other in others {
        if swap_serves(
            case, book, earlier, goal, weights, part, source, outs, own, *other, target,
        ) {
            return Some(Action::Swap {
                part,
                from: source.id,
                other: *other,
                to: target.id,
            });
        }
    }
    None
}

// Whether a swap of one replica with one of a partition serves.
fn some_of_serves<G: Goal>(
    case: &Case,
    book: &LoadBook,
    earlier: &[G],
    goal: &G,
    scan: &Scan,
    part: u32,
    source: &Row,
    outs: &[u64],
    own: Option<u64>,
    other: u32,
) -> bool
    // The goals and the book are of the case.
    requires made { All (λ g. G.made_for g case.now) earlier.now }
    requires made_goal { G.made_for goal.now case.now }
    requires belongs { IsBookOf case.now book.now }
    // The scan is of these lists, and so is the row of the source.
    requires scan { IsScanFor G.Goal case.now book.now.lists earlier.now goal.now scan.now }
    requires part { part < length case.now.parts }
    requires source { IsRowFor G.Goal case.now book.now.lists earlier.now goal.now source.now }
    requires outs { outs.now
        ≡ weights_for G.Goal case.now book.now.lists part source.now.id earlier.now }
    requires own { own ≡ weight_for G.Goal case.now book.now.lists part source.now.id goal.now }
    // The other partition.
    requires other { other < length case.now.parts }
    // No means that none of its members serves.
    ensures { result ≡ false
        → All
        (λ b. StepFor G.Goal case.now book.now.lists earlier.now goal.now
        (Action.Swap part source.now.id other b) → ⊥) (list_of book.now.lists other) }
{
    let _brokers = case.brokers();
    let _lists = book.lists();
    let weights = scan.weights.as_slice();
    let members = book.list(other as usize);
    for member in members {
        let target = row_of(case, book, earlier, goal, scan, *member);
        if swap_serves(
            case, book, earlier, goal, weights, part, source, outs, own, other, target,
        ) {
            return true;
        }
    }
    false
}

// Whether a swap of one replica with one of a partition that stirs serves.
fn some_stirring_serves<G: Goal>(
    case: &Case,
    book: &LoadBook,
    earlier: &[G],
    goal: &G,
    scan: &Scan,
    part: u32,
    source: &Row,
    outs: &[u64],
    own: Option<u64>,
) -> bool
    // The goals and the book are of the case.
    requires made { All (λ g. G.made_for g case.now) earlier.now }
    requires made_goal { G.made_for goal.now case.now }
    requires belongs { IsBookOf case.now book.now }
    // The scan is of these lists, and so is the row of the source.
    requires scan { IsScanFor G.Goal case.now book.now.lists earlier.now goal.now scan.now }
    requires part { part < length case.now.parts }
    requires source { IsRowFor G.Goal case.now book.now.lists earlier.now goal.now source.now }
    requires outs { outs.now
        ≡ weights_for G.Goal case.now book.now.lists part source.now.id earlier.now }
    requires own { own ≡ weight_for G.Goal case.now book.now.lists part source.now.id goal.now }
    // No means that no partition that stirs serves.
    ensures { result ≡ false
        → All
        (λ q. All
        (λ b. StepFor G.Goal case.now book.now.lists earlier.now goal.now
        (Action.Swap part source.now.id q b) → ⊥) (list_of book.now.lists q))
        scan.now.stirring.items }
{
    let _brokers = case.brokers();
    let _lists = book.lists();
    let stirring = scan.stirring.as_slice();
    for other in stirring {
        if some_of_serves(
            case, book, earlier, goal, scan, part, source, outs, own, *other,
        ) {
            return true;
        }
    }
    false
}

// Whether a swap of one replica may serve: where its partition doesn't stir, the other one has to.
fn may_serve<G: Goal>(
    case: &Case,
    book: &LoadBook,
    earlier: &[G],
    goal: &G,
    scan: &Scan,
    part: u32,
    source: &Row,
    outs: &[u64],
    own: Option<u64>,
) -> bool
    // The goals and the book are of the case.
    requires made { All (λ g. G.made_for g case.now) earlier.now }
    requires made_goal { G.made_for goal.now case.now }
    requires belongs { IsBookOf case.now book.now }
    // The scan is of these lists, and so is the row of the source.
    requires scan { IsScanFor G.Goal case.now book.now.lists earlier.now goal.now scan.now }
    requires part { part < length case.now.parts }
    requires source { IsRowFor G.Goal case.now book.now.lists earlier.now goal.now source.now }
    requires outs { outs.now
        ≡ weights_for G.Goal case.now book.now.lists part source.now.id earlier.now }
    requires own { own ≡ weight_for G.Goal case.now book.now.lists part source.now.id goal.now }
    // No means that no swap serves.
    ensures { result ≡ false → (q b : ℕ)
        → StepFor G.Goal case.now book.now.lists earlier.now goal.now
        (Action.Swap part source.now.id q b) → ⊥ }
{
    let _brokers = case.brokers();
    let _lists = book.lists();
    if !may_be_swapped(case, part, source.id) {
        return false;
    }
    if goal.stirs(case, book, part) {
        return true;
    }
    some_stirring_serves(case, book, earlier, goal, scan, part, source, outs, own)
}

/// The first swap of one replica that serves, by the order of the brokers and of the replicas of
/// each.
pub fn first_swap<G: Goal>(
    case: &Case,
    book: &LoadBook,
    order: &Order,
    earlier: &[G],
    goal: &G,
    scan: &Scan,
    part: u32,
    source: &Row,
) -> Option<Action>
    // The goals and the book are of the case.
    requires made { All (λ g. G.made_for g case.now) earlier.now }
    requires made_goal { G.made_for goal.now case.now }
    requires belongs { IsBookOf case.now book.now }
    // The order and the scan are of these lists, and so is the row of the source.
    requires order { IsOrderOf case.now book.now.lists order.now }
    requires scan { IsScanFor G.Goal case.now book.now.lists earlier.now goal.now scan.now }
    requires part { part < length case.now.parts }
    requires source { IsRowFor G.Goal case.now book.now.lists earlier.now goal.now source.now }
    // The first that serves, or none does.
    ensures { FindsFirst G.Goal case.now book.now.lists earlier.now goal.now
        (candidates_at kind.Swaps case.now book.now.lists source.now.id part) result }
{
    let _lists = book.lists();
    let first = leads(book.list(part as usize), source.id);
    let own = goal.weight(case, part, first);
    let weights = scan.weights.as_slice();
    let outs = column(case, earlier, weights, part, first);
    if !may_serve(case, book, earlier, goal, scan, part, source, outs, own) {
        return None;
    }
    let rows = scan.rows.as_slice();
    for (k, target) in rows.iter().enumerate() {
        let others = order.row(k);
        let found = first_with(
            case, book, earlier, goal, weights, part, source, outs, own, target, others,
        );
        if let Some(action) = found {
            return Some(action);
        }
    }
    None
}
